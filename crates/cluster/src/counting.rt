//! How many requests were executed, of those of a layer.

ghost use Rattle.std.specs.Prelude.{◌≡◌, ◌≤◌, length, IfSome, IfNone};
ghost use Rattle.cluster.specs.Counting.{as_word, one_if, executed_in};
ghost use Rattle.layer_results.specs.Results.{names_of};

use layer_results::{Done, DoneRow};

/// How many requests of a layer were executed; the greatest number of 64 bits where that is more.
#[inline(always)]
pub(super) fn executed_in(rows: &[DoneRow]) -> u64
    ensures { result ≡ as_word (executed_in rows.now) }
{
    let mut count: u64 = 0;
    for row in rows {
        count = count.saturating_add(one_if(row));
    }
    count
}

fn one_if(row: &DoneRow) -> u64
    ensures { result ≡ one_if row.now.reply }
{
    match &row.reply {
        Some(_) => 1,
        None => 0,
    }
}

/// How many requests of a layer starved as a whole, and members of those that were executed; the greatest number of 64 bits where that
/// is more.
#[inline(always)]
pub(super) fn starved_in(done: &Done) -> u64
    ensures { result ≡ as_word (length (names_of done.now)) }
{
    match done.names_count() {
        Some(count) => count as u64,
        None => u64::MAX,
    }
}
