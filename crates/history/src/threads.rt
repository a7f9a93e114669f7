// Several threads that write one history, whose writer lies under a lock.
ghost use Rattle.std.specs.Prelude.{◌≡◌};
ghost use Rattle.history.specs.Orders.{MayFollow, EndsWith, EndsBehind};

use crate::laws::{Law, Naming, Says};
use crate::part::Part;
use crate::writer::Writer;
use std::sync::{Mutex, Wait};
use std::thread::{Threads, join};

/// Writes the entry that `M` says of the value, from any thread, under the writer's lock and behind all that is in the part
/// `seen`. What is given back ends with that entry. It may wait for the lock, and has no error.
pub fn write_locked<L: Law, J: Naming, X: Drop, M: Says<X, L::Entry>>(
    rt: &impl Wait,
    writer: &Mutex<Writer<L, J>>,
    about: X,
    seen: &Part<L, J>,
) -> Part<L, J>
    requires { MayFollow L.legal (M.entry about) }
    ensures { EndsBehind seen.now (M.entry about) result }
{
    let mut writer = writer.lock(rt);
    writer.is_legal();
    writer.write_behind::<X, M>(about, seen);
    writer.part()
}

/// What two threads, and who has seen what both wrote, know of a history: each part ends with the entry of whoever has it.
#[derive(Drop)]
pub struct ThreeParts<L: Law, J: Naming> {
    pub first: Part<L, J>,
    pub second: Part<L, J>,
    pub last: Part<L, J>,
}

/// Two threads write, one entry each, in whatever order; then who has seen both writes one. All three stand in one legal list,
/// and the last behind the two others: who asks once he has seen an answer stands behind it.
pub fn write_in_threads<
    L: Law + Send + Sync,
    J: Naming + Send + Sync,
    X: Drop + Send,
    M: Says<X, L::Entry> + Send + Sync,
    R: Threads + Wait + Sync,
>(rt: &R, writer: Writer<L, J>, first: X, second: X, last: X) -> ThreeParts<L, J>
    requires first { MayFollow L.legal (M.entry first) }
    requires second { MayFollow L.legal (M.entry second) }
    requires last { MayFollow L.legal (M.entry last) }
    ensures legal { L.legal result.last }
    ensures first { EndsWith (M.entry first) result.first }
    ensures second { EndsWith (M.entry second) result.second }
    ensures behind_first { EndsBehind result.first (M.entry last) result.last }
    ensures behind_second { EndsBehind result.second (M.entry last) result.last }
{
    let start = writer.part();
    let writer = Mutex::new(writer);
    let (one, other) = join(
        rt,
        || -> Part<L, J>
            requires { MayFollow L.legal (M.entry first) }
            ensures { EndsWith (M.entry first) result }
        { write_locked::<L, J, X, M>(rt, &writer, first, &start) },
        || -> Part<L, J>
            requires { MayFollow L.legal (M.entry second) }
            ensures { EndsWith (M.entry second) result }
        { write_locked::<L, J, X, M>(rt, &writer, second, &start) },
    );
    let both = one.with(&other);
    let all = write_locked::<L, J, X, M>(rt, &writer, last, &both);
    all.is_legal();
    ThreeParts {
        first: one,
        second: other,
        last: all,
    }
}
