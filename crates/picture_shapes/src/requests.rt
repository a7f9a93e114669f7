//! Requests at their connections: a bar from the Submit to the answer, and one from there until it is collected.

ghost use Rattle.std.specs.Prelude.{◌<◌, ◌^◌};

use crate::canvas::{CHARACTER, Canvas, room_between};
use crate::facts::RequestFacts;
use crate::frame::Frame;
use crate::label::{ARROW, Piece};
use crate::shape::{Form, Look, bar};

/// How high a bar is.
const BAR: u64 = 20;

/// The bars of the requests, the latest first, and the dot where each goes to its groups.
pub(super) fn draw_requests(requests: &[RequestFacts], frame: &Frame, canvas: &mut Canvas) {
    for request in requests.iter().rev() {
        if request.submit >= frame.to() || frame.is_past(request.over) {
            continue;
        }
        if let Some(row) = frame.row(request.asked.id.conn) {
            let has_ask = has_ask(request, frame);
            if has_ask {
                draw_ask(request, row, frame, canvas);
            }
            if let Some(settled) = request.settled
                && settled < frame.to()
            {
                draw_answer(request, frame.x(settled), row, has_ask, frame, canvas);
            }
            draw_dot(request, frame, canvas);
        }
    }
}

/// Whether a bar of the time until the answer is there: no Submit answered the request at once, and no step before the
/// window.
fn has_ask(request: &RequestFacts, frame: &Frame) -> bool {
    match request.settled {
        None => true,
        Some(step) => step != request.submit && !frame.is_past(request.settled),
    }
}

/// The bar of the time until the answer.
fn draw_ask(request: &RequestFacts, row: u64, frame: &Frame, canvas: &mut Canvas)
    requires { row < 2 ^ 38 }
{
    let id = request.asked.id;
    let x0 = frame.x(request.submit);
    let x1 = match request.settled {
        Some(step) => frame.x(step),
        None => frame.x_or_end(request.over),
    };
    canvas.bar(
        Look::of("ask", request.asked.number),
        bar(x0, row + 4, x1, BAR),
        &[
            Piece::Text(b"request "),
            Piece::Id(id),
            Piece::Text(b": "),
            Piece::Text(request.title.as_slice()),
        ],
    );
    let (id, words) = ([Piece::Id(id)], [Piece::Text(request.words.as_slice())]);
    let room = room_between(x0, x1, 8, CHARACTER);
    canvas.write_cut(Look::plain("in"), (x0 + 5, row + 18), &id, &words, room);
}

/// The bar of the answer, from this place on. Its label is the reply, and the request before it where that has no bar of
/// its own.
fn draw_answer(
    request: &RequestFacts,
    x0: u64,
    row: u64,
    has_ask: bool,
    frame: &Frame,
    canvas: &mut Canvas,
)
    requires right { x0 < 2 ^ 39 }
    requires below { row < 2 ^ 38 }
{
    let id = request.asked.id;
    canvas.bar(
        Look::of("answer", request.asked.number).starved_where(request.starved),
        bar(x0, row + 4, frame.x_or_end(request.over), BAR),
        &[
            Piece::Text(b"request "),
            Piece::Id(id),
            Piece::Text(b": "),
            Piece::Text(request.title.as_slice()),
            Piece::Text(b"; reply "),
            Piece::Text(request.reply.as_slice()),
        ],
    );
    let look = Look::plain("reply").starved_where(request.starved);
    let room = room_between(x0, frame.x_or_end(request.followed), 8, CHARACTER);
    let place = (x0 + 5, row + 18);
    if has_ask {
        canvas.write_cut(
            look,
            place,
            &[],
            &[Piece::Text(request.reply.as_slice())],
            room,
        );
    } else {
        canvas.write_cut(
            look,
            place,
            &[Piece::Id(id)],
            &[
                Piece::Text(request.words.as_slice()),
                Piece::Text(&[b' ', ARROW, b' ']),
                Piece::Text(request.reply.as_slice()),
            ],
            room,
        );
    }
}

/// The dot where a request goes to its groups, if it goes to any.
fn draw_dot(request: &RequestFacts, frame: &Frame, canvas: &mut Canvas) {
    if !frame.shows(request.submit) || request.is_answered_at_once() {
        return;
    }
    let dot = Form::Disc {
        x: frame.x(request.submit),
        y: frame.gate(),
        radius: 3,
    };
    canvas.bar(
        Look::of("dot", request.asked.number),
        dot,
        &[
            Piece::Text(b"step "),
            Piece::Number(request.submit as u64),
            Piece::Text(b": request "),
            Piece::Id(request.asked.id),
        ],
    );
}
