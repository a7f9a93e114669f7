//! Requests of several threads, each at a seat of its own.
ghost use denote.Param.Send.{IsSync};
ghost use Rattle.std.specs.Prelude.{[], IfOk};
ghost use Rattle.answer_laws.specs.Asking.{IsAnswered, StandTogether};
ghost use Rattle.resp.specs.Content.{content};
ghost use Rattle.shared_cluster.specs.contracts.shared.Shared as shared_type;

use cluster::{Leading, SealedReply, Seat, Server, StepsOf};
use history::Part;
use resp::Request;
use serial_store::Tabled;
use shared_cluster::{AskFault, Shared};
use std::sync::Wait;
use std::thread::{Threads, join};
use std::time::Clock;

/// A reply, and what the seat that got it had seen with it.
#[derive(Drop)]
struct Answered<T: Tabled, L: Server> {
    reply: SealedReply,
    seen: Part<Leading<T>, StepsOf<L>>,
}

/// What three requests were answered, and steps that begin with all that their seats had seen then.
#[derive(Drop)]
pub struct Three<T: Tabled, L: Server> {
    pub first: SealedReply,
    pub second: SealedReply,
    pub last: SealedReply,
    pub all: Part<Leading<T>, StepsOf<L>>,
}

/// Asks at this seat, which stands then.
fn ask_at<T: Tabled, L: Server, R: Wait + Clock>(
    rt: &R,
    shared: &Shared<T, L>,
    seat: Seat<T, L>,
    words: Request,
) -> Result<Answered<T, L>, AskFault>
    ensures { IfOk result (λ a. IsAnswered T.table seat.seen words (content a.reply.reply) a.seen) }
{
    let mut seat = seat;
    match shared.ask_turning(rt, &mut seat, words) {
        Ok(reply) => {
            let seen = seat.seen();
            shared.stand(rt, seat);
            Ok(Answered { reply, seen })
        }
        Err(fault) => {
            shared.stand(rt, seat);
            Err(fault)
        }
    }
}

/// Asks at a new seat.
fn ask_once<T: Tabled, L: Server, R: Wait + Clock>(
    rt: &R,
    shared: &Shared<T, L>,
    words: Request,
) -> Result<Answered<T, L>, AskFault>
    ensures { IfOk result (λ a. IsAnswered T.table [] words (content a.reply.reply) a.seen) }
{
    match shared.sit(rt) {
        Ok(seat) => ask_at(rt, shared, seat, words),
        Err(fault) => Err(fault),
    }
}

/// The same, behind all that is in the part.
fn ask_behind<T: Tabled, L: Server, R: Wait + Clock>(
    rt: &R,
    shared: &Shared<T, L>,
    part: &Part<Leading<T>, StepsOf<L>>,
    words: Request,
) -> Result<Answered<T, L>, AskFault>
    ensures { IfOk result (λ a. IsAnswered T.table part.now words (content a.reply.reply) a.seen) }
{
    match shared.sit(rt) {
        Ok(seat) => {
            let mut seat = seat;
            seat.learn(part);
            ask_at(rt, shared, seat, words)
        }
        Err(fault) => Err(fault),
    }
}

/// Two threads ask, each at a seat of its own; then who has seen what both saw asks. Where all are answered, one list of steps leads to
/// a world in which all three stand, each with its own words and its answer; all that ended there is what one thread gets; and the
/// last one has run behind the two others. That a `&` to the cluster may go to another thread is for the caller to know: `server` says
/// it.
pub fn ask_in_threads<
    T: Tabled + Send + Sync,
    L: Server + Send + Sync,
    R: Threads + Wait + Clock + Sync,
>(
    rt: &R,
    shared: &Shared<T, L>,
    first: Request,
    second: Request,
    last: Request,
) -> Result<Three<T, L>, AskFault>
    requires crosses { IsSync (shared_type.the_row T.row L.row T.Tabled (record { steps = L.steps; runs = L.runs }) L.Ledger) }
    ensures { IfOk result (λ r. StandTogether T.table r.all
        (first, content r.first.reply) (second, content r.second.reply) (last, content r.last.reply)) }
{
    let (one, other) = join(
        rt,
        move || -> Result<Answered<T, L>, AskFault>
            ensures { IfOk result (λ a. IsAnswered T.table [] first (content a.reply.reply) a.seen) }
        { ask_once(rt, shared, first) },
        move || -> Result<Answered<T, L>, AskFault>
            ensures { IfOk result (λ a. IsAnswered T.table [] second (content a.reply.reply) a.seen) }
        { ask_once(rt, shared, second) },
    );
    let one = match one {
        Ok(one) => one,
        Err(fault) => return Err(fault),
    };
    let other = match other {
        Ok(other) => other,
        Err(fault) => return Err(fault),
    };
    let both = one.seen.with(&other.seen);
    match ask_behind(rt, shared, &both, last) {
        Ok(then) => {
            let all = both.with(&then.seen);
            all.is_legal();
            Ok(Three {
                first: one.reply,
                second: other.reply,
                last: then.reply,
                all,
            })
        }
        Err(fault) => Err(fault),
    }
}
