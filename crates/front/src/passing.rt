//! A request that is submitted and, where nothing is before it, taken at once.

ghost use Rattle.std.specs.Prelude.{◌≡◌, ℕ, ◌<◌, ◌≤◌, ◌+◌, [], ◌∷◌, length, true, Some, vec_capacity, IfOk, IfErr, OnOk, OnErr};
ghost use Rattle.std.specs.Prelude.{IfSome, IfNone};
ghost use Rattle.delivery.specs.Queues.{queue_of};
ghost use Rattle.delivery.specs.Ready.{IsReady};
ghost use Rattle.front.specs.Layers.{AreJobs};
ghost use Rattle.front.specs.Passing.{Passes, MayPass};
ghost use Rattle.front.specs.Taking.{IsTaking};
ghost use Rattle.front.specs.Refusing.{IsFault};
ghost use Rattle.groups.specs.GroupSet.{has};
ghost use Rattle.journal.specs.declared.step.Step.{Step};
ghost use Rattle.multicast.specs.Multicast.{Begins, IsSame, MayBeDelivered, Passes as PassesAlone};
ghost use Rattle.placement.specs.Layout.{Layout};
ghost use Rattle.router.specs.Router.{RouterView, connection};
ghost use Rattle.router.specs.Submitting.{IsAsBefore, IsRefused, SubmitsAndTakes, TakesOut};
ghost use Rattle.router.specs.declared.connection.Connection.{Connection};
ghost use Rattle.router.specs.declared.router.TheConstants.{GREATEST_NUMBER};
ghost use Rattle.skeen_core.specs.declared.packet.Body.{Body};
ghost use Rattle.skeen_core.specs.declared.packet.Delivered.{Delivered};
ghost use Rattle.world.specs.World.{World};

use super::fault::FrontFault;
use super::front::Front;
use super::layers::job_of;
use super::requests::unsent;
use groups::{ConnId, RequestId};
use layer_planner::{Job, Layer};
use multicast::Multicast;
use packing::PackedRequest;
use placement::Table;
use resp::Request;
use router::{Router, Submission, SubmitFault};
use skeen_core::Delivered;
use std::alloc::{AllocError, Global};
use std::mem;
use worded::Worded;

impl Front {
    /// A connection submits a request of these words, and has its id. Where nothing is under way, and the request addresses one group,
    /// or several that have each delivered one of the connection before, all its packets come and it is taken as a layer of its own,
    /// which is handed out: what comes of it is what comes of `submit`, `deliver` and `take`, but nothing is sent and queued for it. Else
    /// a Start goes to each of its groups.
    ///
    /// Errors, with nothing changed: `NoConn`, the connection isn't open; `Busy`, it hasn't collected the outcome of its last
    /// request; `Memory`.
    pub fn pass(
        &mut self,
        conn: ConnId,
        words: Request,
    ) -> Result<(RequestId, Option<Layer>), FrontFault>
        requires { MayPass self.old }
        ensures made { IfOk result (λ it. Passes self.old conn words it.0 it.1 self.new) }
        ensures refused { IfErr result (IsFault self.old (Step.Submit conn words)) }
        ensures unchanged { OnErr result (self.new ≡ self.old) }
    {
        if !self.quiet() {
            return match self.submit(conn, words) {
                Ok(id) => Ok((id, None)),
                Err(fault) => Err(fault),
            };
        }
        let sent = submit_and_take(
            &self.table,
            &mut self.router,
            &mut self.multicast,
            &mut self.buffer,
            &mut self.asked,
            conn,
            words,
        )?;
        let Some(request) = deliver_at_once(
            &mut self.out,
            &mut self.jobs,
            &mut self.multicast,
            &sent,
        ) else {
            send(
                &mut self.router,
                &mut self.multicast,
                &mut self.asked,
                &sent,
            );
            self.steps += 1;
            return Ok((sent.id, None));
        };
        let groups = sent.groups.len() as u64;
        let layer = hand_out(
            self.alloc,
            &mut self.out,
            &mut self.jobs,
            request,
            &mut self.asked,
        );
        self.steps += groups * groups + 2;
        Ok((sent.id, Some(layer)))
    }

    /// Keeps the list of jobs and the words of a request that passed, which are no longer needed, as room for the next one, where they
    /// are small.
    #[inline(always)]
    pub fn keep_room(&mut self, jobs: Vec<Job>, words: PackedRequest)
        ensures { self.new ≡ self.old }
    {
        if jobs.capacity() <= GREATEST_KEPT {
            let_go(mem::replace(&mut self.jobs, jobs));
        }
        let buffer = words.into_buffer();
        if buffer.capacity() <= GREATEST_BUFFER {
            self.buffer = buffer;
        }
    }
}

/// Lets go of a list of jobs. One without room has nothing, and nothing is called for it.
#[inline(always)]
fn let_go(jobs: Vec<Job>) {
    if jobs.capacity() == 0 {
        mem::forget(jobs);
    }
}

/// The router submits a request of these words, and what it asks is taken; there is room for a Start to each of its groups. A refusal
/// changes nothing but the room.
#[inline]
fn submit_and_take(
    table: &Table,
    router: &mut Router,
    multicast: &mut Multicast,
    buffer: &mut Vec<u8>,
    asked: &mut Vec<Worded>,
    conn: ConnId,
    words: Request,
) -> Result<Submission, SubmitFault>
    requires { (v : Connection) → connection router.old conn.0 ≡ Some v → v.seq < GREATEST_NUMBER }
    ensures submitted { IfOk result (λ sent.
        SubmitsAndTakes table.now conn.0 words router.old sent asked.new.items router.new) }
    ensures room { IfOk result (λ sent. length sent.groups ≤ multicast.new.room) }
    ensures same { IsSame multicast.old multicast.new }
    ensures refused { IfErr result (IsRefused (connection router.old conn.0)) }
    ensures unchanged { OnErr result (router.new ≡ router.old) }
{
    // Mostly it is empty, and then nothing is called.
    if !asked.is_empty() {
        asked.clear();
    }
    let groups = usize::from(table.shards());
    let Ok(()) = multicast.reserve(groups) else {
        return Err(unsent(router, conn));
    };
    let Ok(()) = asked.reserve(1) else {
        return Err(unsent(router, conn));
    };
    router.submit_and_take(table, conn, words, buffer, asked)
}

/// What was taken of a request waits again, and a Start goes to each of its groups.
// A call, since most requests are delivered at once.
#[inline(never)]
fn send(router: &mut Router, multicast: &mut Multicast, asked: &mut Vec<Worded>, sent: &Submission)
    requires taken { (r : RouterView) × TakesOut r sent.now.id asked.old.items router.old }
    requires room { length sent.now.groups ≤ multicast.old.room }
    ensures as_before { (r : RouterView) → TakesOut r sent.now.id asked.old.items router.old → IsAsBefore r router.new }
    ensures begins { Begins multicast.old sent.now.id sent.now.floor sent.now.groups multicast.new }
{
    if let Some(asked) = asked.pop() {
        router.put_back(sent.id.conn, asked);
    }
    multicast.start(sent.id, sent.floor, sent.groups);
}

/// The layer of this request alone, of which this was taken; it is out then. There is room for it.
fn hand_out(
    alloc: Global,
    out: &mut Vec<Delivered>,
    jobs: &mut Vec<Job>,
    request: Delivered,
    asked: &mut Vec<Worded>,
) -> Layer
    requires waits { (t : Layout) × (w : World) × (r r' : RouterView) × IsTaking t w [] (request ∷ []) r
        × TakesOut r request.id asked.old.items r' }
    requires none_out { (out.old.items ≡ []) × (1 ≤ vec_capacity out.old) }
    requires no_jobs { (jobs.old.items ≡ []) × (1 ≤ vec_capacity jobs.old) }
    ensures out { out.new.items ≡ request ∷ [] }
    ensures taken { (t : Layout) (w : World) (r r' : RouterView) → IsTaking t w [] (request ∷ []) r
        → TakesOut r request.id asked.old.items r' → IsTaking t w (request ∷ []) [] r' × AreJobs w.asked (request ∷ []) result }
{
    let Some(asked) = asked.pop() else {
        unreachable!()
    };
    jobs.push_reserved(job_of(&request, asked));
    out.push_reserved(request);
    let Some(layer) = Layer::gather(mem::replace(jobs, Vec::new(alloc))) else {
        unreachable!()
    };
    layer
}

/// So long is a list of jobs at most that is kept.
const GREATEST_KEPT: usize = 16;

/// So many bytes has a buffer of words at most that is kept.
const GREATEST_BUFFER: usize = 4096;

/// So many groups may a request address that is delivered at once: its packets are their square.
const GREATEST_AT_ONCE: usize = 8;

/// The request that was submitted is delivered at once, where it addresses few groups; the room for it and for its job is taken only
/// then. None where it isn't so simple, or where there is no memory: then nothing changes but the room.
#[inline]
fn deliver_at_once(
    out: &mut Vec<Delivered>,
    jobs: &mut Vec<Job>,
    multicast: &mut Multicast,
    sent: &Submission,
) -> Option<Delivered>
    requires no_packet { multicast.old.packets ≡ [] }
    requires none_ready { (d : Delivered) → ¬ IsReady (queue_of multicast.old.queues) d }
    requires comes { (g : ℕ) → has sent.now.groups g ≡ true
        → MayBeDelivered multicast.old (record { to = g; id = sent.now.id; body = Body.Start sent.now.floor sent.now.groups }) }
    ensures out { out.new.items ≡ out.old.items }
    ensures room { IfSome result (λ _. length out.new.items + 1 ≤ vec_capacity out.new) }
    ensures no_jobs { IfSome result (λ _. (jobs.new.items ≡ []) × (1 ≤ vec_capacity jobs.new)) }
    ensures few { IfSome result (λ _. length sent.now.groups ≤ 8) }
    ensures named { IfSome result (λ request. request.id ≡ sent.now.id) }
    ensures passed { IfSome result (λ it. PassesAlone multicast.old sent.now.id sent.now.floor sent.now.groups it multicast.new) }
    ensures unchanged { IfNone result (multicast.new ≡ multicast.old) }
{
    if sent.groups.is_empty() || sent.groups.len() > GREATEST_AT_ONCE {
        return None;
    }
    let Ok(()) = room_for_one(out, jobs) else {
        return None;
    };
    multicast.pass(sent.id, sent.floor, sent.groups)
}

/// Takes the room for one request more that is out, and for its job alone. The only error is want of memory.
#[inline]
fn room_for_one(out: &mut Vec<Delivered>, jobs: &mut Vec<Job>) -> Result<(), AllocError>
    ensures out { out.new.items ≡ out.old.items }
    ensures room { OnOk result (length out.new.items + 1 ≤ vec_capacity out.new) }
    ensures no_jobs { OnOk result ((jobs.new.items ≡ []) × (1 ≤ vec_capacity jobs.new)) }
{
    // As above.
    if !jobs.is_empty() {
        jobs.clear();
    }
    out.reserve(1)?;
    jobs.reserve(1)
}
