//! What steps come to, and what is there then, as text. In replies `|` stands for CR LF.

use crate::trouble::Trouble;
use groups::{RequestId, SkipId, Stamp};
use journal::{Row, Rows};
use resp::{Request, write_reply};
use router::Outcome;
use std::alloc::Global;
use system::{Effect, StepFault};

/// Adds what a step came to.
pub(crate) fn push_effect(
    alloc: Global,
    text: &mut String,
    effect: &Effect,
) -> Result<(), Trouble> {
    match effect {
        Effect::Opened(conn) => Ok(write!(text, "opened {}", conn.0)?),
        Effect::Submitted(id) => {
            text.push_str("submitted ")?;
            push_id(text, id)
        }
        Effect::Ran(starved) => push_ran(text, starved.as_slice()),
        Effect::Collected(outcome) => push_waiting(alloc, text, outcome.as_ref()),
        Effect::Made => Ok(text.push_str("made")?),
    }
}

/// Adds the name of a fault.
pub(crate) fn push_fault(text: &mut String, fault: StepFault) -> Result<(), Trouble> {
    Ok(write!(text, "{fault:?}")?)
}

/// Adds `CONN.SEQ`.
fn push_id(text: &mut String, id: &RequestId) -> Result<(), Trouble> {
    Ok(write!(text, "{}.{}", id.conn.0, id.seq)?)
}

fn push_ran(text: &mut String, starved: &[SkipId]) -> Result<(), Trouble> {
    text.push_str("ran")?;
    if !starved.is_empty() {
        text.push_str(", starved")?;
        push_names(text, starved)?;
    }
    Ok(())
}

/// Adds the names, a blank before each.
pub(crate) fn push_names(text: &mut String, names: &[SkipId]) -> Result<(), Trouble> {
    for name in names {
        text.push(' ')?;
        push_name(text, name)?;
    }
    Ok(())
}

/// Adds `CONN.SEQ` of a request, and `CONN.SEQ.NUMBER` of a member of one.
fn push_name(text: &mut String, name: &SkipId) -> Result<(), Trouble> {
    match name {
        SkipId::Whole(id) => push_id(text, id),
        SkipId::Part(id, number) => {
            push_id(text, id)?;
            Ok(write!(text, ".{number}")?)
        }
    }
}

/// Adds an outcome, if one is there.
pub(crate) fn push_waiting(
    alloc: Global,
    text: &mut String,
    outcome: Option<&Outcome>,
) -> Result<(), Trouble> {
    match outcome {
        Some(outcome) => push_outcome(alloc, text, outcome),
        None => Ok(text.push_str("nothing")?),
    }
}

fn push_outcome(alloc: Global, text: &mut String, outcome: &Outcome) -> Result<(), Trouble> {
    push_id(text, &outcome.id)?;
    text.push(' ')?;
    if let Some(stamp) = &outcome.stamp {
        push_stamp(text, stamp)?;
    }
    let mut reply = Vec::new(alloc);
    write_reply(&outcome.reply, &mut reply)?;
    push_reply(text, reply.as_slice())
}

/// Adds `at CLOCK.GROUP ` and nothing else.
fn push_stamp(text: &mut String, stamp: &Stamp) -> Result<(), Trouble> {
    write!(text, "at {}.{} ", stamp.clock, stamp.group.number())?;
    Ok(())
}

/// Adds the text of a reply, with `|` for CR LF.
fn push_reply(text: &mut String, reply: &[u8]) -> Result<(), Trouble> {
    for byte in reply {
        match *byte {
            b'\r' => (),
            b'\n' => text.push('|')?,
            byte => text.push(char::from(byte))?,
        }
    }
    Ok(())
}

/// Adds a row: id, stamp, words and reply.
pub(crate) fn push_row(alloc: Global, text: &mut String, row: &Row<'_>) -> Result<(), Trouble> {
    push_id(text, &row.id())?;
    text.push(' ')?;
    push_stamp(text, row.stamp())?;
    let request = row.request(alloc)?;
    push_words(text, &request)?;
    push_reply(text, row.reply())
}

/// Adds the words of a request, a blank behind each.
fn push_words(text: &mut String, request: &Request) -> Result<(), Trouble> {
    for place in 0..request.len() {
        push_reply(text, request.word(place))?;
        text.push(' ')?;
    }
    Ok(())
}

/// Adds all rows in the order of execution.
pub(crate) fn push_rows(alloc: Global, text: &mut String, rows: &Rows) -> Result<(), Trouble> {
    for place in 0..rows.len() {
        if let Some(row) = rows.row(place) {
            push_row(alloc, text, &row)?;
            text.push('\n')?;
        }
    }
    Ok(())
}

/// The places of the rows, from 0, ascending by their stamps.
pub(crate) fn by_stamp(alloc: Global, rows: &Rows) -> Result<Vec<usize>, Trouble> {
    let mut stamps = stamps_of(alloc, rows)?;
    stamps.sort()?;
    let mut places = Vec::new(alloc);
    for (_, _, place) in stamps {
        places.push(place)?;
    }
    Ok(places)
}

/// The clock, the group and the place of each row's stamp.
fn stamps_of(alloc: Global, rows: &Rows) -> Result<Vec<(u64, u8, usize)>, Trouble> {
    let mut stamps = Vec::new(alloc);
    for place in 0..rows.len() {
        if let Some(row) = rows.row(place) {
            stamps.push((row.stamp().clock, row.stamp().group.number(), place))?;
        }
    }
    Ok(stamps)
}
