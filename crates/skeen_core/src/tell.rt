//! What a group sends: its proposal, to each other group of the request.
ghost use Rattle.std.specs.Prelude.{◌≡◌, IfOk};
ghost use Rattle.skeen_core.specs.Group.{tell};

use super::packet::{Body, Packet};
use groups::{GroupId, Groups, RequestId};
use std::alloc::{AllocError, Global};

/// The proposals of the group `me` for one request, to the other groups of it, ascending. The only error is want of
/// memory.
pub fn tell(
    alloc: Global,
    me: GroupId,
    id: RequestId,
    clock: u64,
    groups: Groups,
) -> Result<Vec<Packet>, AllocError>
    ensures { IfOk result (λ sent. sent.items ≡ tell me id clock groups) }
{
    let mut sent = Vec::with_capacity(alloc, groups.len().saturating_sub(1))?;
    for group in groups.iter() {
        if group == me {
            continue;
        }
        sent.push(Packet {
            to: group,
            id,
            body: Body::Proposal { from: me, clock },
        })?;
    }
    Ok(sent)
}
