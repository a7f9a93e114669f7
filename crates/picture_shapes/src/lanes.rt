//! What stands still: steps, groups and connections.

ghost use Rattle.std.specs.Prelude.{◌<◌, ◌^◌};

use crate::canvas::Canvas;
use crate::facts::{ConnectionFacts, ReceiptFacts, RunFacts, StepWord};
use crate::frame::{Frame, LANE, LEFT};
use crate::label::Piece;
use crate::shape::{Look, bar, line};
use groups::{ConnId, GroupId};

/// How far the names of the groups are apart.
const NAMES: u64 = 1200;

/// The number of every few steps, and the word of each where there is room.
pub(super) fn draw_steps(run: &RunFacts, frame: &Frame, canvas: &mut Canvas) {
    let every = if frame.pitch() >= 20 { 5 } else { 10 };
    let bottom = frame.below(run.groups) - 6;
    for step in frame.from()..frame.to() {
        let x = frame.x(step);
        if step % every == 0 {
            let number = Piece::Number(step as u64);
            canvas.ground(Look::plain("grid"), line(x, 76, x, bottom));
            canvas.write(Look::plain("mute mid"), x, 72, &[number]);
        }
        if frame.pitch() == 40 {
            write_word(run.steps.get(step), x, canvas);
        }
    }
}

/// The word of a step.
fn write_word(word: Option<&StepWord>, x: u64, canvas: &mut Canvas) {
    let name: &[u8] = match word {
        None => b"",
        Some(StepWord::Deliver(_)) => b"#",
        Some(StepWord::Open) => b"open",
        Some(StepWord::Submit) => b"submit",
        Some(StepWord::Take) => b"take",
        Some(StepWord::Run) => b"run",
        Some(StepWord::Settle) => b"settle",
        Some(StepWord::Collect) => b"collect",
        Some(StepWord::Close) => b"close",
        Some(StepWord::Repeat(_)) => b"+#",
    };
    let (look, name) = (Look::plain("mute mid"), Piece::Text(name));
    match word {
        Some(StepWord::Deliver(place)) | Some(StepWord::Repeat(place)) => {
            canvas.write(look, x, 86, &[name, Piece::Number(*place)]);
        }
        _ => canvas.write(look, x, 86, &[name]),
    }
}

/// The lane of each group, its name, and its clock at the left edge.
pub(super) fn draw_groups(run: &RunFacts, frame: &Frame, canvas: &mut Canvas) {
    let clocks = clocks_before(run.receipts.as_slice(), frame.from());
    for number in 0..run.groups.min(64) {
        let group = GroupId::new(number);
        draw_group(group, clocks[usize::from(number)], frame, canvas);
    }
    let gate = frame.gate();
    canvas.ground(Look::plain("gate"), line(LEFT, gate, frame.end(), gate));
}

/// The lane of a group.
fn draw_group(group: GroupId, clock: u64, frame: &Frame, canvas: &mut Canvas) {
    let name = [
        Piece::Text(b"group "),
        Piece::Number(u64::from(group.number())),
    ];
    let clock = [Piece::Text(b"clock "), Piece::Number(clock)];
    let (top, axis) = (frame.top(group), frame.line(group));
    canvas.ground(Look::plain("lane"), bar(0, top, frame.width(), LANE - 6));
    canvas.ground(Look::plain("axis"), line(LEFT, axis, frame.end(), axis));
    canvas.write(Look::plain("name"), 12, axis + 1, &name);
    canvas.write(Look::plain("mute"), 12, axis + 15, &clock);
    for count in 0..frame.end().saturating_sub(LEFT + 61) / NAMES {
        let x = LEFT + NAMES + NAMES * count;
        canvas.write(Look::plain("mute"), x, top + 11, &name);
    }
}

/// The clock of each group before this step.
fn clocks_before(receipts: &[ReceiptFacts], step: usize) -> [u64; 64] {
    let mut clocks = [0; 64];
    for receipt in receipts {
        if receipt.step < step {
            clocks[usize::from(receipt.packet.to.number())] = receipt.clock;
        }
    }
    clocks
}

/// The line of each connection that is shown, its name, and where it is opened and closed.
pub(super) fn draw_connections(
    connections: &[ConnectionFacts],
    frame: &Frame,
    canvas: &mut Canvas,
) {
    let mut number: u64 = 0;
    for connection in connections {
        number = number.saturating_add(1);
        if let Some(row) = frame.row(ConnId(number)) {
            draw_connection(number, connection, row, frame, canvas);
        }
    }
}

/// The line of a connection.
fn draw_connection(
    number: u64,
    connection: &ConnectionFacts,
    row: u64,
    frame: &Frame,
    canvas: &mut Canvas,
)
    requires { row < 2 ^ 38 }
{
    let y = row + 24;
    let (opened, closed) = (connection.opened, connection.closed);
    let (x0, x1) = (frame.x(opened), frame.x_or_end(closed));
    let name = [Piece::Text(b"conn "), Piece::Number(number)];
    let tick = Look::plain("tick");
    canvas.write(Look::plain("name"), 12, row + 18, &name);
    canvas.ground(Look::plain("axis"), line(x0, y, x1, y));
    if frame.shows(opened) {
        canvas.bar(tick, line(x0, row + 18, x0, row + 30), &name);
    }
    if frame.shows_some(closed) {
        canvas.bar(tick, line(x1 - 4, row + 20, x1 + 4, row + 28), &name);
        canvas.bar(tick, line(x1 - 4, row + 28, x1 + 4, row + 20), &name);
    }
}
