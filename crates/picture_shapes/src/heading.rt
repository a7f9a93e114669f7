//! What a picture says in words: its heading, what there is how often, and the order of execution.

use crate::canvas::Canvas;
use crate::facts::{JobFacts, LayerFacts, RunFacts};
use crate::frame::Frame;
use crate::label::{ELLIPSIS, MIDDLE_DOT, Piece, put_pieces, text};
use crate::shape::Look;
use std::alloc::{AllocError, Global};

/// How many executed requests the description names.
const NAMED: u64 = 20;

/// Something, and how often it is there within the window.
type Count = (&'static [u8], u64);

/// Writes the heading and the counts, and answers the description: both, and the order of execution.
pub(super) fn draw_heading(
    alloc: Global,
    run: &RunFacts,
    frame: &Frame,
    canvas: &mut Canvas,
) -> Result<Vec<u8>, AllocError> {
    let counts = counts_of(run, frame);
    let heading = heading_of(alloc, run.steps.len(), frame)?;
    let listed = listed(alloc, &counts, &[b' ', MIDDLE_DOT, b' '])?;
    let title = [Piece::Text(heading.as_slice())];
    let sub = [Piece::Text(listed.as_slice())];
    canvas.write(Look::plain("title"), 12, 28, &title);
    canvas.write(Look::plain("sub"), 12, 48, &sub);
    let mut description = heading;
    description.extend_from_slice(b": ")?;
    description.extend_from_slice(self::listed(alloc, &counts, b", ")?.as_slice())?;
    description.extend_from_slice(b". Executed in this order: ")?;
    put_order(run.layers.as_slice(), frame, &mut description)?;
    description.extend_from_slice(b".")?;
    Ok(description)
}

/// Which of so many steps the picture shows.
fn heading_of(alloc: Global, all: usize, frame: &Frame) -> Result<Vec<u8>, AllocError> {
    let (from, to, count) = (frame.from(), frame.to(), Piece::Number(all as u64));
    if from == 0 && to == all {
        let name: &[u8] = if all == 1 { b" step" } else { b" steps" };
        text(
            alloc,
            &[Piece::Text(b"A run of "), count, Piece::Text(name)],
        )
    } else if from < to {
        let (first, last) = (Piece::Number(from as u64), Piece::Number((to - 1) as u64));
        text(
            alloc,
            &[
                Piece::Text(b"Steps "),
                first,
                Piece::Text(b" to "),
                last,
                Piece::Text(b" of "),
                count,
            ],
        )
    } else {
        text(alloc, &[Piece::Text(b"No step of "), count])
    }
}

/// What there is how often.
fn counts_of(run: &RunFacts, frame: &Frame) -> [Count; 8] {
    let (mut requests, mut packets, mut layers) = (0, 0, 0);
    let (mut executed, mut starved) = (0, 0);
    for request in &run.requests {
        add_where(frame.shows(request.submit), &mut requests);
    }
    for packet in &run.packets {
        add_where(frame.shows(packet.sent), &mut packets);
    }
    for layer in &run.layers {
        add_where(frame.shows(layer.take), &mut layers);
        if frame.shows_some(layer.run) {
            count_jobs(layer.jobs.as_slice(), &mut executed, &mut starved);
        }
    }
    [
        (b"groups", u64::from(run.groups)),
        (b"connections", frame.shown()),
        (b"requests", requests),
        (b"executed", executed),
        (b"starved", starved),
        (b"packets", packets),
        (b"under way", frame.waiting()),
        (b"layers", layers),
    ]
}

/// Counts one more where it is one.
fn add_where(is_one: bool, count: &mut u64) {
    if is_one {
        *count = count.saturating_add(1);
    }
}

/// Counts the requests of a layer that was run.
fn count_jobs(jobs: &[JobFacts], executed: &mut u64, starved: &mut u64) {
    for job in jobs {
        add_where(!job.starved, executed);
        add_where(job.starved, starved);
    }
}

/// The counts, with this between them.
fn listed(alloc: Global, counts: &[Count], between: &[u8]) -> Result<Vec<u8>, AllocError> {
    let mut listed = Vec::new(alloc);
    let mut before: &[u8] = b"";
    for (name, count) in counts {
        let pieces = [
            Piece::Text(before),
            Piece::Text(name),
            Piece::Text(b" "),
            Piece::Number(*count),
        ];
        put_pieces(&pieces, &mut listed)?;
        before = between;
    }
    Ok(listed)
}

/// Appends the first executed requests with their stamps.
fn put_order(layers: &[LayerFacts], frame: &Frame, out: &mut Vec<u8>) -> Result<(), AllocError> {
    let mut named = 0;
    for layer in layers {
        if frame.shows_some(layer.run) {
            put_jobs(layer.jobs.as_slice(), &mut named, out)?;
        }
    }
    if named == 0 {
        out.extend_from_slice(b"none")?;
    }
    Ok(())
}

/// Appends the executed requests of a layer, as far as they are among the first ones, and an ellipsis behind those.
fn put_jobs(jobs: &[JobFacts], named: &mut u64, out: &mut Vec<u8>) -> Result<(), AllocError> {
    for job in jobs {
        if job.starved || *named > NAMED {
            continue;
        }
        let between: &[u8] = if *named > 0 { b", " } else { b"" };
        if *named == NAMED {
            put_pieces(&[Piece::Text(between), Piece::Text(&[ELLIPSIS])], out)?;
        } else {
            let (id, stamp) = (Piece::Id(job.asked.id), Piece::Stamp(job.stamp));
            put_pieces(&[Piece::Text(between), id, Piece::Text(b" "), stamp], out)?;
        }
        *named = named.saturating_add(1);
    }
    Ok(())
}
