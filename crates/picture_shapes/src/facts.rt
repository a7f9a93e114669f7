//! The facts of a run that a picture shows: what happened to whom at which step. Plain data.

ghost use Rattle.std.specs.Prelude.{◌≡◌};
ghost use Rattle.picture_shapes.specs.Frames.{is_at};

use groups::{GroupId, Groups, RequestId, Stamp};

/// A request, and how many Submits stand before its own in the run.
#[derive(Clone, Copy)]
pub struct Asked {
    pub id: RequestId,
    pub number: usize,
}

/// The word of a step.
#[derive(Clone, Copy)]
pub enum StepWord {
    Open,
    Submit,
    /// The packet at this place came.
    Deliver(u64),
    Take,
    Run,
    Settle,
    Collect,
    Close,
    /// A copy of the packet at this place was sent behind all others.
    Repeat(u64),
}

/// A connection: the steps at which it was opened and closed.
#[derive(Clone, Copy)]
pub struct ConnectionFacts {
    pub opened: usize,
    pub closed: Option<usize>,
}

/// A request and what came of it.
#[derive(Drop)]
pub struct RequestFacts {
    pub asked: Asked,
    /// Its words, cut for a label.
    pub words: Vec<u8>,
    /// Its words, cut for a title.
    pub title: Vec<u8>,
    pub submit: usize,
    /// The step that answered it: the Settle of its layer, or its own Submit where it addressed no group. None also
    /// where its connection was closed before.
    pub settled: Option<usize>,
    /// The step at which its outcome was collected, or its connection closed before that.
    pub over: Option<usize>,
    /// The step at which its connection submits again or is closed.
    pub followed: Option<usize>,
    pub starved: bool,
    /// Its reply, cut for a label; empty where it has none.
    pub reply: Vec<u8>,
    pub stamp: Option<Stamp>,
}

impl RequestFacts {
    /// Whether its own Submit answered it.
    pub(super) fn is_answered_at_once(&self) -> bool
        ensures { result ≡ is_at self.now.settled self.now.submit }
    {
        match self.settled {
            Some(step) => step == self.submit,
            None => false,
        }
    }
}

/// A packet: a Start where it comes from no group, and else a proposal of that group.
#[derive(Clone, Copy)]
pub struct PacketFacts {
    pub asked: Asked,
    pub from: Option<GroupId>,
    pub to: GroupId,
    /// The floor of a Start, or the clock that a proposal proposes.
    pub clock: u64,
    pub sent: usize,
    pub received: Option<usize>,
}

/// A packet that came to its group: the group's clock after it, and whether that rose.
#[derive(Clone, Copy)]
pub struct ReceiptFacts {
    pub step: usize,
    pub packet: PacketFacts,
    pub clock: u64,
    pub rose: bool,
}

/// A request that a group delivered, with its final stamp: the step, and its place among what the group delivered then.
#[derive(Clone, Copy)]
pub struct DeliveryFacts {
    pub step: usize,
    pub group: GroupId,
    pub asked: Asked,
    pub stamp: Stamp,
    pub place: u32,
    /// The place of the last of these.
    pub last: u32,
}

/// A request of a layer.
#[derive(Clone, Copy)]
pub struct JobFacts {
    pub asked: Asked,
    pub stamp: Stamp,
    pub groups: Groups,
    pub starved: bool,
}

/// A reply that went to its connection: the step at which its layer was settled, and its request.
#[derive(Clone, Copy)]
pub struct ReplyFacts {
    pub step: usize,
    pub asked: Asked,
}

/// A layer, counted from 1: the steps at which it was taken, run and settled, its requests, and the groups that they
/// address.
#[derive(Drop)]
pub struct LayerFacts {
    pub number: usize,
    pub take: usize,
    pub run: Option<usize>,
    pub settle: Option<usize>,
    pub groups: Groups,
    pub jobs: Vec<JobFacts>,
}

/// The facts of a run, each list in the order in which they came about. Connection N is at place N-1 of its list.
#[derive(Drop)]
pub struct RunFacts {
    pub groups: u8,
    pub steps: Vec<StepWord>,
    pub connections: Vec<ConnectionFacts>,
    pub requests: Vec<RequestFacts>,
    pub packets: Vec<PacketFacts>,
    pub receipts: Vec<ReceiptFacts>,
    pub deliveries: Vec<DeliveryFacts>,
    pub layers: Vec<LayerFacts>,
    pub replies: Vec<ReplyFacts>,
}
