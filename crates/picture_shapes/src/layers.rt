//! Layers: the lines at their sides, their labels and requests, where they were run, and the heads of their replies.

ghost use Rattle.std.specs.Prelude.{◌<◌, ◌≤◌, ◌^◌};

use crate::canvas::{CHARACTER, Canvas, SMALL, room_between};
use crate::facts::{Asked, JobFacts, LayerFacts, ReplyFacts};
use crate::frame::Frame;
use crate::label::Piece;
use crate::shape::{Look, bar, head, line};
use groups::GroupId;

/// What a request of a layer has of its width, and the lane that it is in.
#[derive(Clone, Copy)]
struct Span {
    left: u64,
    right: u64,
    y: u64,
    ghost most: { left < 2 ^ 40 },
    ghost below: { y < 2 ^ 39 },
}

/// The layers that aren't settled before the window.
pub(super) fn draw_layers(layers: &[LayerFacts], frame: &Frame, canvas: &mut Canvas) {
    for layer in layers {
        if layer.take < frame.to() && !frame.is_past(layer.settle) {
            draw_layer(layer, frame, canvas);
        }
    }
}

/// The label and the sides of a layer, and what is in its bands.
fn draw_layer(layer: &LayerFacts, frame: &Frame, canvas: &mut Canvas) {
    let (x0, x1) = (frame.x(layer.take), frame.x_or_end(layer.settle));
    let (strip, number) = (frame.strip(), Piece::Number(layer.number as u64));
    let width = x1.saturating_sub(x0);
    let (look, place) = (Look::plain("tag"), (x0 + 4, strip + 12));
    if width < 12 * CHARACTER {
        let room = room_between(x0, x1, 6, CHARACTER);
        canvas.write_cut(look, place, &[number], &[], room);
    } else {
        canvas.write(look, x0 + 4, strip + 12, &[Piece::Text(b"layer "), number]);
    }
    let mut bottom = strip + 16;
    for group in layer.groups.iter() {
        bottom = frame.top(group);
        draw_jobs(layer, group, x0, width, frame, canvas);
    }
    canvas.ground(Look::plain("side"), line(x0, strip + 16, x0, bottom));
    canvas.ground(Look::plain("side"), line(x1, strip + 16, x1, bottom));
}

/// The bars of a layer's requests in a lane, in equal shares of its width, and a notch where it was run.
fn draw_jobs(
    layer: &LayerFacts,
    group: GroupId,
    x0: u64,
    width: u64,
    frame: &Frame,
    canvas: &mut Canvas,
)
    requires left { x0 < 2 ^ 39 }
    requires most { width < 2 ^ 39 }
{
    let y = frame.top(group);
    let shares = jobs_at(layer.jobs.as_slice(), group);
    let mut share: u64 = 0;
    let mut left = x0;
    for job in &layer.jobs {
        if job.groups.contains(group) {
            share = share.saturating_add(1);
            let right = x0 + (width.saturating_mul(share) / shares.max(1)).min(width);
            draw_job(job, Span { left, right, y }, canvas);
            left = right;
        }
    }
    if let Some(run) = layer.run
        && frame.shows(run)
    {
        let words = [Piece::Text(b"run at step "), Piece::Number(run as u64)];
        let notch = head(frame.x(run), y + 97, y + 91);
        canvas.bar(Look::plain("ran"), notch, &words);
    }
}

/// How many of these requests address the group.
fn jobs_at(jobs: &[JobFacts], group: GroupId) -> u64 {
    let mut count: u64 = 0;
    for job in jobs {
        if job.groups.contains(group) {
            count = count.saturating_add(1);
        }
    }
    count
}

/// The bar of a request in a lane.
fn draw_job(job: &JobFacts, span: Span, canvas: &mut Canvas) {
    let Span { left, right, y } = span;
    let Asked { id, number } = job.asked;
    let said: &[u8] = if job.starved { b"starved" } else { b"" };
    let look = Look::of("job", number).starved_where(job.starved);
    canvas.bar(
        look,
        bar(left, y + 92, right, 16),
        &[
            Piece::Text(b"request "),
            Piece::Id(id),
            Piece::Text(b" at "),
            Piece::Stamp(job.stamp),
            Piece::Text(b" "),
            Piece::Text(said),
        ],
    );
    let look = Look::of("on", number).starved_where(job.starved);
    let room = room_between(left, right, 5, SMALL);
    let (id, said) = ([Piece::Id(id)], [Piece::Text(said)]);
    canvas.write_cut(look, (left + 4, y + 104), &id, &said, room);
}

/// The heads of the replies that go to their connections within the window.
pub(super) fn draw_replies(replies: &[ReplyFacts], frame: &Frame, canvas: &mut Canvas) {
    for reply in replies {
        if let Some(row) = frame.row(reply.asked.id.conn)
            && frame.shows(reply.step)
        {
            let head = head(frame.x(reply.step), row + 24, row + 31);
            let words = [
                Piece::Text(b"step "),
                Piece::Number(reply.step as u64),
                Piece::Text(b": reply to "),
                Piece::Id(reply.asked.id),
            ];
            canvas.bar(Look::of("head", reply.asked.number), head, &words);
        }
    }
}
