//! The outcomes of a layer that is settled.

ghost use Rattle.std.specs.Prelude.{◌≡◌, Some};
ghost use Rattle.front.specs.Outcomes.{Gives, MayGo, HaveGone};
ghost use Rattle.resp.specs.Content.{content, out_of_memory};

use groups::{RequestId, Stamp};
use layer_results::DoneRow;
use resp::Reply;
use router::{Outcome, Router};

/// Each request gets its outcome, and its row is let go. It takes no memory.
pub(super) fn hand_rows(router: &mut Router, rows: Vec<DoneRow>)
    requires { MayGo rows.items router.old }
    ensures { HaveGone rows.items router.old router.new }
{
    for row in rows {
        let clock = stamp_of(&row);
        let outcome = outcome_of(row);
        router.settle(clock, outcome);
    }
}

/// What the connection of the row's request is given.
// Inlined, so that an outcome is moved once.
#[inline(always)]
fn outcome_of(row: DoneRow) -> Outcome
    ensures { Gives row result }
{
    let DoneRow {
        id,
        stamp,
        words: _words,
        reply,
    } = row;
    match reply {
        Some(reply) => Outcome {
            id,
            reply,
            stamp: Some(stamp),
        },
        None => starved(id, stamp),
    }
}

/// The row's stamp.
pub(super) fn stamp_of(row: &DoneRow) -> Stamp
    ensures { result ≡ row.now.stamp }
{
    Stamp { ..row.stamp }
}

/// What the connection of a request that starved as a whole is given.
fn starved(id: RequestId, stamp: Stamp) -> Outcome
    ensures id { result.id ≡ id }
    ensures reply { content result.reply ≡ out_of_memory }
    ensures stamp { result.stamp ≡ Some stamp }
{
    Outcome {
        id,
        reply: Reply::out_of_memory(),
        stamp: Some(stamp),
    }
}
