//! Whether a request is to be skipped as a whole.

ghost use Rattle.std.specs.Prelude.{◌≡◌};
ghost use Rattle.groups.specs.Skips.{names_whole};
ghost use Rattle.shard_workers.specs.WholeNames.{is_whole_of};

use groups::{RequestId, SkipId};

/// Whether one of these names the request as a whole.
pub(crate) fn names_whole(names: &[SkipId], id: &RequestId) -> bool
    ensures { result ≡ names_whole names.now id.now }
{
    names.iter().any(|name| is_whole_of(name, id))
}

/// Whether it names this request as a whole.
fn is_whole_of(name: &SkipId, id: &RequestId) -> bool
    ensures { result ≡ is_whole_of name.now id.now }
{
    match name {
        SkipId::Whole(named) => *named == *id,
        SkipId::Part(_, _) => false,
    }
}
