//! What is read of a front. Nothing here changes anything or takes memory.

ghost use Rattle.std.specs.Prelude.{◌≡◌, ◌≢◌, ◌↔◌, [], length, slice_get, option_copied, IsTrue};
ghost use Rattle.delivery.specs.Queues.{queue_of};
ghost use Rattle.delivery.specs.Ready.{IsReady};
ghost use Rattle.front.specs.Fronts.{IsFront};
ghost use Rattle.front.specs.Making.{SeesNoRun};
ghost use Rattle.front.specs.Looking.{IsQuiet};
ghost use Rattle.multicast.specs.Multicast.{group_of};
ghost use Rattle.router.specs.Lists.{is_listing};
ghost use Rattle.router.specs.Router.{session_at, waiting};
ghost use Rattle.skeen_core.specs.declared.packet.Delivered.{Delivered};

use super::front::Front;
use groups::{ConnId, GroupId};
use placement::Table;
use router::Outcome;
use skeen_core::{Delivered, Packet};

impl Front {
    /// It does nothing: its contract says what each front is.
    ///
    /// Some history has led here, of the steps that its calls made and of a Run for each layer that was settled, and the front
    /// shows its world. It is at the same where its layer is run.
    pub fn holds(&self)
        ensures is_front { IsFront self.now }
        ensures no_run { SeesNoRun self.now }
    {
        let _ = &self.router;
    }

    /// Where keys lie.
    pub fn table(&self) -> &Table
        ensures { result.now ≡ self.now.table }
    {
        &self.table
    }

    /// How many calls made a step.
    pub fn steps(&self) -> u64
        ensures { result ≡ self.now.steps }
    {
        self.steps
    }

    /// How many layers were settled: each was run once, which is a step of the history that no call made.
    pub fn layers(&self) -> u64
        ensures { result ≡ self.now.layers }
    {
        self.layers
    }

    /// How many packets are under way.
    pub fn packets(&self) -> usize
        ensures { result ≡ length self.now.multicast.packets }
    {
        self.multicast.packets()
    }

    /// The packet at this place of those under way, counted from 0 in order of sending.
    pub fn packet(&self, place: usize) -> Option<&Packet>
        ensures { option_copied result ≡ slice_get self.now.multicast.packets place }
    {
        self.multicast.packet(place)
    }

    /// Whether some request is ready: it stands at the head of the queue of each of its groups, and a Take would take it.
    pub fn has_ready(&self) -> bool
        ensures { IsTrue result ↔ ((d : Delivered) × IsReady (queue_of self.now.multicast.queues) d) }
    {
        self.multicast.has_ready()
    }

    /// Whether a layer is out.
    pub fn is_out(&self) -> bool
        ensures { IsTrue result ↔ (self.now.out ≢ []) }
    {
        !self.out.is_empty()
    }

    /// The requests of the layer that is out, in its order; none where none is.
    pub fn out(&self) -> &[Delivered]
        ensures { result.now ≡ self.now.out }
    {
        self.out.as_slice()
    }

    /// The outcome that waits for a connection, left in place.
    pub fn waits(&self, conn: ConnId) -> Option<&Outcome>
        ensures { option_copied result ≡ waiting self.now.router conn.0 }
    {
        self.router.waits(conn)
    }

    /// Whether requests are added to a list that is open on the connection.
    pub fn has_list(&self, conn: ConnId) -> bool
        ensures { result ≡ is_listing (session_at self.now.router conn.0) }
    {
        self.router.has_list(conn)
    }

    /// Whether nothing is under way: no packet, no layer, and no request that is ready.
    pub fn quiet(&self) -> bool
        ensures { IsTrue result ↔ IsQuiet self.now }
    {
        if !self.out.is_empty() {
            return false;
        }
        if self.multicast.packets() != 0 {
            return false;
        }
        !self.multicast.has_ready()
    }

    /// The clock of a group. A group that isn't there has the clock of a new one.
    pub fn clock(&self, group: GroupId) -> u64
        ensures { result ≡ (group_of self.now.multicast.groups group).clock }
    {
        self.multicast.clock(group)
    }

    /// The request at this place of those that the group has delivered and no layer has taken, counted from 0 from the
    /// oldest.
    pub fn delivered(&self, group: GroupId, place: usize) -> Option<&Delivered>
        ensures { option_copied result ≡ slice_get (queue_of self.now.multicast.queues group) place }
    {
        self.multicast.delivered(group, place)
    }

    /// How many requests the group has delivered that no layer has taken.
    pub fn queued(&self, group: GroupId) -> usize
        ensures { result ≡ length (queue_of self.now.multicast.queues group) }
    {
        self.multicast.queued(group)
    }
}
