//! Writing a trace's text.

ghost use Rattle.std.specs.Prelude.{◌≡◌, ℕ, [], ◌∷◌, ◌++◌, List, IfOk, OnOk, OnErr, decimal};
ghost use Rattle.std.specs.List.{flat_map};
ghost use Rattle.hex.specs.Hex.{encode_lower};
ghost use Rattle.packing.specs.Codes.{many, number_at, word_at};
ghost use Rattle.journal.specs.Codes.{run_at, skip_at, step_at, submit_at};
ghost use Rattle.journal.specs.TraceText.{word_text, id_text, skip_text, step_line, ended, trace_text, Spells};

use super::codes::{CLOSE, COLLECT, DELIVER, REPEAT, RUN, SETTLE, SUBMIT, TAKE, take_skip};
use super::trace::Trace;
use super::version::WRITTEN_VERSION;
use groups::{RequestId, SkipId};
use hex::encode_to_slice;
use itoa::Buffer;
use packing::{take_number, take_word};
use std::alloc::AllocError;

/// Appends the trace's text, which spells the trace. With `AllocError`, where there is no memory for all of it, `out`
/// is as it was.
pub fn write_trace(trace: &Trace, out: &mut Vec<u8>) -> Result<(), AllocError>
    ensures ok { OnOk result (out.new.items ≡ out.old.items ++ trace_text trace.now.max trace.now.steps) }
    ensures spells { OnOk result (Spells (trace_text trace.now.max trace.now.steps) trace.now.max trace.now.steps) }
    ensures err { OnErr result (out.new.items ≡ out.old.items) }
{
    let start = out.len();
    let written = put_trace(trace, out);
    if written.is_err() {
        out.truncate(start);
    }
    written
}

/// Appends the trace's text, or a part of it where there is no memory for all.
fn put_trace(trace: &Trace, out: &mut Vec<u8>) -> Result<(), AllocError>
    ensures ok { OnOk result (out.new.items ≡ out.old.items ++ trace_text trace.now.max trace.now.steps) }
    ensures spells { OnOk result (Spells (trace_text trace.now.max trace.now.steps) trace.now.max trace.now.steps) }
    ensures err { OnErr result ((more : List ℕ) × (out.new.items ≡ out.old.items ++ more)) }
{
    put_numbered(b"shardkv-trace ", WRITTEN_VERSION, out)?;
    put_numbered(b"max ", trace.max(), out)?;
    trace.steps().put_lines(out)?;
    put_numbered(b"end ", trace.len() as u64, out)
}

/// Appends the line of the step at the front of the bytes, and gives the bytes behind it.
#[tactic(auto, unfolding(crate::specs::Codes::step_at, crate::specs::Codes::step_of, crate::specs::Codes::deliver_at, crate::specs::Codes::collect_at, crate::specs::Codes::close_at, crate::specs::Codes::repeat_at))]
pub(super) fn put_line<'a>(bytes: &'a [u8], out: &mut Vec<u8>) -> Result<&'a [u8], AllocError>
    ensures ok { OnOk result (out.new.items ≡ out.old.items ++ ended (step_line (step_at bytes.now).0)) }
    ensures rest { IfOk result (λ rest. rest.now ≡ (step_at bytes.now).1) }
    ensures err { OnErr result ((more : List ℕ) × (out.new.items ≡ out.old.items ++ more)) }
{
    match bytes {
        [SUBMIT, rest @ ..] => put_submit(rest, out),
        [DELIVER, rest @ ..] => put_number_at(b"deliver ", rest, out),
        [TAKE, rest @ ..] => put_name(b"take\n", rest, out),
        [RUN, rest @ ..] => put_run(rest, out),
        [SETTLE, rest @ ..] => put_name(b"settle\n", rest, out),
        [COLLECT, rest @ ..] => put_number_at(b"collect ", rest, out),
        [CLOSE, rest @ ..] => put_number_at(b"close ", rest, out),
        [REPEAT, rest @ ..] => put_number_at(b"repeat ", rest, out),
        [_, rest @ ..] => put_name(b"open\n", rest, out),
        [] => put_name(b"open\n", bytes, out),
    }
}

/// Appends a line that is a name alone, of a step behind which these bytes stand.
fn put_name<'a>(line: &[u8], rest: &'a [u8], out: &mut Vec<u8>) -> Result<&'a [u8], AllocError>
    ensures ok { OnOk result (out.new.items ≡ out.old.items ++ line.now) }
    ensures rest { IfOk result (λ left. left.now ≡ rest.now) }
    ensures err { OnErr result (out.new.items ≡ out.old.items) }
{
    out.extend_from_slice(line)?;
    Ok(rest)
}

/// Appends a line of a name, with its space, and the number at the front of the bytes, and gives the bytes behind it.
fn put_number_at<'a>(
    name: &[u8],
    bytes: &'a [u8],
    out: &mut Vec<u8>,
) -> Result<&'a [u8], AllocError>
    ensures ok { OnOk result (out.new.items ≡ out.old.items ++ ended (name.now ++ decimal (number_at bytes.now).0)) }
    ensures rest { IfOk result (λ rest. rest.now ≡ (number_at bytes.now).1) }
    ensures err { OnErr result ((more : List ℕ) × (out.new.items ≡ out.old.items ++ more)) }
{
    let (number, rest) = take_number(bytes);
    put_numbered(name, number, out)?;
    Ok(rest)
}

/// Appends the line of the Submit behind whose kind these bytes stand, and gives the bytes behind it.
fn put_submit<'a>(bytes: &'a [u8], out: &mut Vec<u8>) -> Result<&'a [u8], AllocError>
    ensures ok { OnOk result (out.new.items ≡ out.old.items ++ ended (step_line (submit_at bytes.now).0)) }
    ensures rest { IfOk result (λ rest. rest.now ≡ (submit_at bytes.now).1) }
    ensures err { OnErr result ((more : List ℕ) × (out.new.items ≡ out.old.items ++ more)) }
{
    let (conn, rest) = take_number(bytes);
    let (count, rest) = take_number(rest);
    if count == 0 {
        return put_name(b"open\n", rest, out);
    }
    out.extend_from_slice(b"submit ")?;
    out.extend_from_slice(Buffer::new().format(conn).as_bytes())?;
    let rest = put_words(count, rest, out)?;
    out.push(b'\n')?;
    Ok(rest)
}

/// Appends the line of the Run behind whose kind these bytes stand, and gives the bytes behind it.
fn put_run<'a>(bytes: &'a [u8], out: &mut Vec<u8>) -> Result<&'a [u8], AllocError>
    ensures ok { OnOk result (out.new.items ≡ out.old.items ++ ended (step_line (run_at bytes.now).0)) }
    ensures rest { IfOk result (λ rest. rest.now ≡ (run_at bytes.now).1) }
    ensures err { OnErr result ((more : List ℕ) × (out.new.items ≡ out.old.items ++ more)) }
{
    out.extend_from_slice(b"run")?;
    let (count, rest) = take_number(bytes);
    let rest = put_skips(count, rest, out)?;
    out.push(b'\n')?;
    Ok(rest)
}

/// Appends a line of a name, with its space, and a number.
pub(super) fn put_numbered(name: &[u8], number: u64, out: &mut Vec<u8>) -> Result<(), AllocError>
    ensures ok { OnOk result (out.new.items ≡ out.old.items ++ ended (name.now ++ decimal number)) }
    ensures err { OnErr result ((more : List ℕ) × (out.new.items ≡ out.old.items ++ more)) }
{
    out.extend_from_slice(name)?;
    out.extend_from_slice(Buffer::new().format(number).as_bytes())?;
    out.extend_from_slice(b"\n")?;
    Ok(())
}

/// Appends so many words at the front of the bytes, each behind a space, and gives the bytes behind them.
fn put_words<'a>(count: u64, bytes: &'a [u8], out: &mut Vec<u8>) -> Result<&'a [u8], AllocError>
    ensures ok { OnOk result (out.new.items
        ≡ out.old.items ++ flat_map (λ word. 32 ∷ word_text word) (many word_at count bytes.now).0) }
    ensures rest { IfOk result (λ rest. rest.now ≡ (many word_at count bytes.now).1) }
    ensures err { OnErr result ((more : List ℕ) × (out.new.items ≡ out.old.items ++ more)) }
{
    let mut rest = bytes;
    for _ in 0..count {
        let (word, more) = take_word(rest);
        put_word(word, out)?;
        rest = more;
    }
    Ok(rest)
}

/// Appends a space and a word in hexadecimal.
fn put_word(word: &[u8], out: &mut Vec<u8>) -> Result<(), AllocError>
    ensures ok { OnOk result (out.new.items ≡ out.old.items ++ 32 ∷ word_text word.now) }
    ensures err { OnErr result ((more : List ℕ) × (out.new.items ≡ out.old.items ++ more)) }
{
    if word.is_empty() {
        out.extend_from_slice(b" -")?;
        return Ok(());
    }
    out.push(b' ')?;
    put_hex(word, out)
}

/// Appends two digits a byte. The only error is want of memory, which changes nothing.
fn put_hex(bytes: &[u8], out: &mut Vec<u8>) -> Result<(), AllocError>
    ensures ok { OnOk result (out.new.items ≡ out.old.items ++ encode_lower bytes.now) }
    ensures err { OnErr result (out.new.items ≡ out.old.items) }
{
    let start = out.len();
    let Some(size) = bytes.len().checked_mul(2) else {
        return Err(AllocError);
    };
    let Some(end) = start.checked_add(size) else {
        return Err(AllocError);
    };
    out.resize(end, 0)?;
    let (_, digits) = out.split_at_mut(start);
    let Ok(()) = encode_to_slice(bytes, digits) else {
        unreachable!()
    };
    Ok(())
}

/// Appends so many names at the front of the bytes, each behind a space, and gives the bytes behind them.
fn put_skips<'a>(count: u64, bytes: &'a [u8], out: &mut Vec<u8>) -> Result<&'a [u8], AllocError>
    ensures ok { OnOk result (out.new.items
        ≡ out.old.items ++ flat_map (λ name. 32 ∷ skip_text name) (many skip_at count bytes.now).0) }
    ensures rest { IfOk result (λ rest. rest.now ≡ (many skip_at count bytes.now).1) }
    ensures err { OnErr result ((more : List ℕ) × (out.new.items ≡ out.old.items ++ more)) }
{
    let mut rest = bytes;
    for _ in 0..count {
        let (name, more) = take_skip(rest);
        put_skip(name, out)?;
        rest = more;
    }
    Ok(rest)
}

/// Appends a space and a name: a request's id, and of a member another dot and its number.
fn put_skip(name: SkipId, out: &mut Vec<u8>) -> Result<(), AllocError>
    ensures ok { OnOk result (out.new.items ≡ out.old.items ++ 32 ∷ skip_text name) }
    ensures err { OnErr result ((more : List ℕ) × (out.new.items ≡ out.old.items ++ more)) }
{
    out.push(b' ')?;
    match name {
        SkipId::Whole(id) => put_id(id, out)?,
        SkipId::Part(id, number) => {
            put_id(id, out)?;
            out.extend_from_slice(b".")?;
            out.extend_from_slice(Buffer::new().format(number).as_bytes())?;
        }
    }
    Ok(())
}

/// Appends an id.
fn put_id(id: RequestId, out: &mut Vec<u8>) -> Result<(), AllocError>
    ensures ok { OnOk result (out.new.items ≡ out.old.items ++ id_text id) }
    ensures err { OnErr result ((more : List ℕ) × (out.new.items ≡ out.old.items ++ more)) }
{
    out.extend_from_slice(Buffer::new().format(id.conn.0).as_bytes())?;
    out.extend_from_slice(b".")?;
    out.extend_from_slice(Buffer::new().format(id.seq).as_bytes())?;
    Ok(())
}
