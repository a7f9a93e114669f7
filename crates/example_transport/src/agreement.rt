//! Whether two groups agree.

ghost use Rattle.std.specs.Prelude.{◌≡◌, ◌↔◌, IsTrue, IfOk};
ghost use Rattle.example_transport.specs.Agreement.{has_request, shared, Agree};

use groups::RequestId;
use skeen_core::Delivered;
use std::alloc::{AllocError, Global};

/// Whether the request is among these.
fn has_request(deliveries: &[Delivered], id: RequestId) -> bool
    ensures { result ≡ has_request deliveries.now id }
{
    deliveries.iter().any(|delivered| delivered.id == id)
}

/// The deliveries of requests that the other group has delivered, too, in the order of the first.
pub(crate) fn shared(
    alloc: Global,
    mine: &[Delivered],
    others: &[Delivered],
) -> Result<Vec<Delivered>, AllocError>
    ensures { IfOk result (λ both. both.items ≡ shared mine.now others.now) }
{
    mine.iter()
        .copied()
        .filter(|delivered| has_request(others, delivered.id))
        .collect(alloc)
}

/// Whether two groups agree: of the requests that both have delivered, each has the same order, and the same stamps.
pub(crate) fn agree(
    alloc: Global,
    one: &[Delivered],
    other: &[Delivered],
) -> Result<bool, AllocError>
    ensures { IfOk result (λ agree. IsTrue agree ↔ Agree one.now other.now) }
{
    let mine = shared(alloc, one, other)?;
    let others = shared(alloc, other, one)?;
    Ok(mine.as_slice() == others.as_slice())
}
