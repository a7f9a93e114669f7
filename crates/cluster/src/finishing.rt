//! What came of a layer of one request is settled, and its connection collects it at once.

ghost use Rattle.std.specs.Prelude.{◌≡◌, ◌≢◌, ◌+◌, ◌≤◌, ◌<◌, true, [], ◌∷◌, length, IfOk, IfErr, OnErr, IfSome, IfNone, Some};
ghost use Rattle.cluster.specs.Finishing.{HasFinished, FinishesOnly};
ghost use Rattle.cluster.specs.Histories.{IsUnchanged};
ghost use Rattle.cluster.specs.Traces.{HasRoom};
ghost use Rattle.cluster.specs.declared.finishing.TheConstants.{STEPS_FINISHED};
ghost use Rattle.front.specs.Finishing.{MayFinish};
ghost use Rattle.front.specs.Settling.{IsTrueOf};
ghost use Rattle.layer_results.specs.declared.done.DoneRow.{DoneRow};
ghost use Rattle.resp.specs.declared.reply.Reply.{Reply};

use super::counting::{executed_in, starved_in};
use super::names::{ItsFinish, Leading, Server, StepsOf};
use super::ordered::History;
use super::sealed::Ran;
use super::tape::{COLLECT_SIZE, place, push_collected, push_run, take_back};
use front::Front;
use groups::ConnId;
use history::Part;
use layer_results::{Done, DoneRow};
use packing::PackedRequest;
use resp::Reply;
use serial_store::Tabled;
use std::snapshot::Snapshot;

/// How many steps settle a layer and collect what came of it: its Run, its Settle and a Collect.
const STEPS_FINISHED: u64 = 3;

impl<T: Tabled, L: Server> History<T, L> {
    /// Settles what came of the layer that is out, where it is one request, which has a reply, and has its connection collect it, behind
    /// all that is in the part: the Run, with what starved, the Settle and the Collect are made. Room for so many bytes is kept in the
    /// trace. Else nothing changes but room, and what came of the layer is given back.
    // Inlined, so that the reply is moved once.
    #[inline]
    pub fn finish(
        &mut self,
        ran: Ran<T, L>,
        kept: usize,
        behind: &Part<Leading<T>, StepsOf<L>>,
    ) -> Result<Reply, Ran<T, L>>
        ensures finished { IfOk result (λ reply. HasFinished self.old ran.done behind.now reply self.new) }
        ensures given { IfErr result (λ back. back ≡ ran) }
        ensures unchanged { OnErr result (IsUnchanged self.old self.new) }
        ensures room { HasRoom kept self.old.trace → HasRoom kept self.new.trace }
    {
        if !self.may_finish(&ran) {
            return Err(ran);
        }
        let place = place(&self.trace);
        let Some(room) = kept.checked_add(COLLECT_SIZE) else {
            return Err(ran);
        };
        let done = ran.ran.done();
        let Ok(()) = push_run(self.alloc, &mut self.trace, done, room) else {
            return Err(ran);
        };
        let all_told = ran.told.with(&self.told.part());
        all_told.is_legal();
        let runs = ran.ran.runs();
        let _all_ran = runs.with(&self.ran);
        runs.is_legal();
        let Some(conn) = finish_only(&mut self.front, done) else {
            take_back(&mut self.trace, place);
            return Err(ran);
        };
        push_collected(&mut self.trace, conn, kept);
        let came = Snapshot::of(done);
        self.told
            .write_all_behind::<(Snapshot<Done>, ConnId), ItsFinish>((came, conn), behind);
        self.executed = self.executed.saturating_add(executed_in(done.rows()));
        self.starved = self.starved.saturating_add(starved_in(done));
        self.ran = runs;
        let (done, _runs, jobs) = ran.ran.into_parts();
        let (reply, words) = reply_of(done, &mut self.rows);
        self.front.keep_room(jobs, words);
        Ok(reply)
    }

    /// Whether this came of the layer that is out, by its number, and steps are left for a Run, a Settle and a Collect.
    fn may_finish(&self, ran: &Ran<T, L>) -> bool
        ensures out { result ≡ true → self.now.front.out ≢ [] }
        ensures number { result ≡ true → ran.now.number ≡ self.now.front.layers }
        ensures left { result ≡ true → length self.now.steps + STEPS_FINISHED ≤ self.now.max_steps }
    {
        if !self.front.is_out() || ran.ran.number() != self.front.layers() {
            return false;
        }
        self.lawful();
        self.count() + STEPS_FINISHED <= self.max_steps
    }
}

/// The front settles what came of a layer of one request, and the request's connection collects it, if it is open: then this is its
/// number. Else nothing changes.
#[inline]
fn finish_only(front: &mut Front, done: &Done) -> Option<ConnId>
    requires few { MayFinish front.old }
    requires truth { IsTrueOf front.old done.now }
    ensures finished { IfSome result (λ conn. FinishesOnly front.old done.now conn front.new) }
    ensures unchanged { IfNone result (front.new ≡ front.old) }
{
    let row = only_row(done.rows())?;
    if !front.finish(row) {
        return None;
    }
    Some(row.id.conn)
}

/// The one row, if there is just one.
pub(super) fn only_row(rows: &[DoneRow]) -> Option<&DoneRow>
    ensures { IfSome result (λ row. rows.now ≡ row.now ∷ []) }
{
    if rows.len() != 1 {
        return None;
    }
    rows.first()
}

/// The reply of a layer's one request, and its words; its row lay in what is room for one then.
fn reply_of(done: Done, room: &mut Vec<DoneRow>) -> (Reply, PackedRequest)
    requires { (row : DoneRow) × (reply : Reply) × (done ≡ row ∷ []) × (row.reply ≡ Some reply) }
    ensures { (row : DoneRow) → done ≡ row ∷ [] → row.reply ≡ Some result.0 }
{
    let mut rows = done.into_rows();
    let Some(row) = rows.pop() else {
        unreachable!()
    };
    *room = rows;
    let DoneRow {
        id: _id,
        stamp: _stamp,
        words,
        reply,
    } = row;
    match reply {
        Some(reply) => (reply, words),
        None => unreachable!(),
    }
}
