//! Where things stand: a window of steps from left to right, connections on top, and a lane for each group below.
//!
//! Each place is below 2^40, so that no sum of a few of them is too large.

ghost use Rattle.std.specs.Prelude.{◌≡◌, ◌+◌, ◌*◌, ◌<◌, ◌≤◌, ◌^◌, length, IfOk, IfSome};

use crate::facts::{ConnectionFacts, PacketFacts, RunFacts};
use groups::{ConnId, GroupId};
use std::alloc::{AllocError, Global};

/// Where the steps begin.
pub(super) const LEFT: u64 = 72;

/// The least width of a picture.
const LEAST: u64 = 880;

/// Where the connections begin.
const TOP: u64 = 96;

/// How high a connection is.
const ROW: u64 = 28;

/// How high a group's lane is, and the gap below it.
pub(super) const LANE: u64 = 118;

/// At most how many steps a picture shows.
const MOST_STEPS: usize = 1 << 32;

/// A window of a run's steps, and where all that happens in it is drawn.
#[derive(Drop)]
pub(super) struct Frame {
    from: usize,
    to: usize,
    pitch: u64,
    waiting: u64,
    end: u64,
    width: u64,
    rows: Vec<Option<u32>>,
    shown: u32,
    gate: u64,
    ghost steps: { to ≤ from + 2 ^ 32 },
    ghost pitch_least: { 14 ≤ pitch },
    ghost pitch_most: { pitch ≤ 40 },
    ghost end_least: { 80 ≤ end },
    ghost end_most: { end < 2 ^ 39 },
    ghost width_least: { end + 16 ≤ width },
    ghost width_most: { width < 2 ^ 40 },
    ghost gate_least: { 102 ≤ gate },
    ghost gate_most: { gate < 2 ^ 38 },
}

/// How far two steps are apart, where this many are shown.
fn pitch_of(count: u64) -> u64
    ensures least { 14 ≤ result }
    ensures most { result ≤ 40 }
{
    (2560 / count.max(1)).min(40).max(14)
}

impl Frame {
    ghost use Rattle.picture_shapes.specs.Frames.{IsWindow, is_past, line_of, row_of, shows, shows_some, strip_of, top_of, x_of, x_or_end};

    /// The frame of the steps from the first to before the last of these, as far as the run has them.
    pub(super) fn new(
        alloc: Global,
        run: &RunFacts,
        from: usize,
        to: usize,
    ) -> Result<Self, AllocError>
        ensures { IfOk result (IsWindow (length run.now.steps.items) from to) }
    {
        let to = to.min(run.steps.len());
        let from = from.min(to);
        let to = to.min(from.saturating_add(MOST_STEPS));
        let count = (to - from) as u64;
        let pitch = pitch_of(count);
        let waiting = waiting_at(run.packets.as_slice(), to);
        let (rows, shown) = rows_of(alloc, run.connections.as_slice(), from, to)?;
        let end = end_of(pitch, count, waiting > 0);
        let margin = if waiting > 0 { 48 } else { 16 };
        Ok(Frame {
            from,
            to,
            pitch,
            waiting,
            end,
            width: (end + margin).max(LEAST),
            rows,
            shown,
            gate: TOP + ROW * u64::from(shown) + 6,
        })
    }

    /// The first step that is shown.
    pub(super) fn from(&self) -> usize
        ensures { result ≡ self.now.from }
    {
        self.from
    }

    /// The first step behind those that are shown.
    pub(super) fn to(&self) -> usize
        ensures { result ≡ self.now.to }
    {
        self.to
    }

    /// How far two steps are apart.
    pub(super) fn pitch(&self) -> u64 {
        self.pitch
    }

    /// How many packets are under way behind the last step.
    pub(super) fn waiting(&self) -> u64 {
        self.waiting
    }

    /// Whether the step is shown.
    pub(super) fn shows(&self, step: usize) -> bool
        ensures { result ≡ shows self.now step }
    {
        self.from <= step && step < self.to
    }

    /// Whether the step is there and is shown.
    pub(super) fn shows_some(&self, step: Option<usize>) -> bool
        ensures { result ≡ shows_some self.now step }
    {
        match step {
            Some(step) => self.shows(step),
            None => false,
        }
    }

    /// Whether what happens at this step, if ever, is before the window.
    pub(super) fn is_past(&self, step: Option<usize>) -> bool
        ensures { result ≡ is_past self.now step }
    {
        match step {
            Some(step) => step < self.from,
            None => false,
        }
    }

    /// Whether what happens at this step, if ever, is behind the window.
    pub(super) fn is_behind(&self, step: Option<usize>) -> bool {
        is_from(step, self.to)
    }

    /// Where a step is. One before the window is at its left edge, one behind it at its right edge.
    pub(super) fn x(&self, step: usize) -> u64
        ensures value { result ≡ x_of self.now step }
        ensures least { 72 ≤ result }
        ensures most { result < 2 ^ 39 }
    {
        if step >= self.to {
            return self.end;
        }
        if step < self.from {
            return LEFT;
        }
        LEFT + self.pitch / 2 + times(self.pitch, (step - self.from) as u64)
    }

    /// Where a step is that may never come: then it is at the right edge.
    pub(super) fn x_or_end(&self, step: Option<usize>) -> u64
        ensures value { result ≡ x_or_end self.now step }
        ensures least { 72 ≤ result }
        ensures most { result < 2 ^ 39 }
    {
        match step {
            Some(step) => self.x(step),
            None => self.end(),
        }
    }

    /// The right edge of the steps.
    pub(super) fn end(&self) -> u64
        ensures value { result ≡ self.now.end }
        ensures least { 80 ≤ result }
        ensures most { result < 2 ^ 39 }
    {
        self.end
    }

    /// How wide the picture is.
    pub(super) fn width(&self) -> u64
        ensures least { 96 ≤ result }
        ensures most { result < 2 ^ 40 }
    {
        self.width
    }

    /// Where the last label of a lane may end.
    pub(super) fn last(&self) -> u64
        ensures { result < 2 ^ 40 }
    {
        if self.waiting > 0 {
            self.end
        } else {
            self.width
        }
    }

    /// How many connections are shown.
    pub(super) fn shown(&self) -> u64 {
        u64::from(self.shown)
    }

    /// Where the connection is drawn, if it is.
    pub(super) fn row(&self, conn: ConnId) -> Option<u64>
        ensures value { result ≡ row_of self.now conn.0 }
        ensures bounds { IfSome result (λ y. (96 ≤ y) × (y < 2 ^ 38)) }
    {
        let place = conn.0.checked_sub(1)?;
        match self.rows.get(place as usize) {
            Some(Some(row)) => Some(TOP + ROW * u64::from(*row)),
            _ => None,
        }
    }

    /// The line between the connections and the groups.
    pub(super) fn gate(&self) -> u64
        ensures value { result ≡ self.now.gate }
        ensures least { 102 ≤ result }
        ensures most { result < 2 ^ 38 }
    {
        self.gate
    }

    /// Where the strip of layers is.
    pub(super) fn strip(&self) -> u64
        ensures value { result ≡ strip_of self.now }
        ensures least { 114 ≤ result }
        ensures most { result < 2 ^ 38 + 12 }
    {
        self.gate + 12
    }

    /// Where the lane of a group is.
    pub(super) fn top(&self, group: GroupId) -> u64
        ensures value { result ≡ top_of self.now group }
        ensures least { 136 ≤ result }
        ensures most { result < 2 ^ 38 + 2 ^ 16 }
    {
        self.below(group.number())
    }

    /// The line of a group.
    pub(super) fn line(&self, group: GroupId) -> u64
        ensures value { result ≡ line_of self.now group }
        ensures least { 180 ≤ result }
        ensures most { result < 2 ^ 38 + 2 ^ 17 }
    {
        self.top(group) + 44
    }

    /// Where what is below so many groups begins.
    pub(super) fn below(&self, groups: u8) -> u64
        ensures value { result ≡ top_of self.now groups }
        ensures least { 136 ≤ result }
        ensures most { result < 2 ^ 38 + 2 ^ 16 }
    {
        self.gate + 34 + LANE * u64::from(groups)
    }
}

/// The product of a pitch and a number of steps.
fn times(pitch: u64, count: u64) -> u64
    requires pitch { pitch ≤ 40 }
    requires count { count ≤ 2 ^ 32 }
    ensures value { result ≡ pitch * count }
    ensures most { result ≤ 40 * 2 ^ 32 }
{
    pitch * count
}

/// The right edge of so many steps; there is more room where packets are under way.
fn end_of(pitch: u64, count: u64, has_waiting: bool) -> u64
    requires pitch { pitch ≤ 40 }
    requires count { count ≤ 2 ^ 32 }
    ensures least { 80 ≤ result }
    ensures most { result < 2 ^ 39 }
{
    let margin = if has_waiting { 24 } else { 8 };
    LEFT + times(pitch, count) + margin
}

/// How many packets are under way before this step.
fn waiting_at(packets: &[PacketFacts], step: usize) -> u64 {
    let mut waiting: u64 = 0;
    for packet in packets {
        if packet.sent < step && is_from(packet.received, step) {
            waiting = waiting.saturating_add(1);
        }
    }
    waiting
}

/// Whether what happens at the one step, if ever, isn't before the other.
fn is_from(step: Option<usize>, other: usize) -> bool {
    match step {
        Some(step) => step >= other,
        None => true,
    }
}

/// The row of each connection that is open at a step of the window, and how many these are.
fn rows_of(
    alloc: Global,
    connections: &[ConnectionFacts],
    from: usize,
    to: usize,
) -> Result<(Vec<Option<u32>>, u32), AllocError> {
    let mut rows = Vec::with_capacity(alloc, connections.len())?;
    let mut shown: u32 = 0;
    for connection in connections {
        if connection.opened < to && is_from(connection.closed, from) {
            rows.push(Some(shown))?;
            shown = shown.saturating_add(1);
        } else {
            rows.push(None)?;
        }
    }
    Ok((rows, shown))
}
