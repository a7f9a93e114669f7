//! Steps and the heads of rows in bytes: how many they take, and how they are put and taken.

ghost use Rattle.std.specs.Prelude.{◌≡◌, ◌+◌, ◌≤◌, ◌<◌, ◌^◌, ◌++◌, length, vec_len, vec_capacity, MatchOption, IfOk, IsOk, OnOk};
ghost use Rattle.std.specs.Prelude.{OnErr};
ghost use Rattle.journal.specs.Codes.{id_code, id_at, skip_code, skip_at, skips_code, skips_at, submit_at, step_code, step_at};
ghost use Rattle.journal.specs.Codes.{SkipFits, SkipsFit, StepFits, head_code, HeadFits};
ghost use Rattle.journal.specs.Names.{IsNumbered, AreNumbered};
ghost use Rattle.packing.specs.Codes.{number_code};

use super::skip_ids::SkipIds;
use super::step::Step;
use groups::{ConnId, RequestId, SkipId, Stamp};
use packing::{grow, number_size, put_number, put_words, take_number, take_words, words_size};
use resp::Request;
use std::alloc::{AllocError, Global};

/// The byte that begins a step of each kind.
const OPEN: u8 = 0;

pub(super) const SUBMIT: u8 = 1;

pub(super) const DELIVER: u8 = 2;

pub(super) const TAKE: u8 = 3;

pub(super) const RUN: u8 = 4;

pub(super) const SETTLE: u8 = 5;

pub(super) const COLLECT: u8 = 6;

pub(super) const CLOSE: u8 = 7;

pub(super) const REPEAT: u8 = 8;

/// The greatest number of bytes of a row's numbers.
pub const GREATEST_HEAD: usize = 45;

/// The request of which the name is, and the member's number; 0 where it is the whole request.
#[tactic(auto, unfolding(crate::specs::Codes::skip_code))]
fn parts_of(name: SkipId) -> (RequestId, u64)
    ensures { skip_code name ≡ id_code result.0 ++ number_code result.1 }
{
    match name {
        SkipId::Whole(id) => (id, 0),
        SkipId::Part(id, number) => (id, number),
    }
}

/// How many bytes the names take; `None` where that is 2^64 or more.
fn size_of_skips(names: &[SkipId]) -> Option<usize>
    requires { AreNumbered names.now }
    ensures { MatchOption result (2 ^ 64 ≤ length (skips_code names.now))
        (λ size. (size ≡ length (skips_code names.now)) × SkipsFit names.now) }
{
    let mut size = number_size(names.len() as u64);
    for name in names {
        size = size.checked_add(size_of_skip(*name))?;
    }
    Some(size)
}

/// How many bytes a name takes.
fn size_of_skip(name: SkipId) -> usize
    ensures size { result ≡ length (skip_code name) }
    ensures few { result ≤ 27 }
    ensures fits { IsNumbered name → SkipFits name }
{
    let (id, number) = parts_of(name);
    number_size(id.conn.0) + number_size(id.seq) + number_size(number)
}

/// Appends the names, for which there is room.
fn put_skips(names: &[SkipId], out: &mut Vec<u8>)
    requires { vec_len out.old + length (skips_code names.now) ≤ vec_capacity out.old }
    ensures items { out.new.items ≡ out.old.items ++ skips_code names.now }
    ensures len { vec_len out.new ≡ vec_len out.old + length (skips_code names.now) }
    ensures capacity { vec_capacity out.old ≤ vec_capacity out.new }
{
    put_number(names.len() as u64, out);
    for name in names {
        put_skip(*name, out);
    }
}

/// Appends a name, for which there is room.
fn put_skip(name: SkipId, out: &mut Vec<u8>)
    requires { vec_len out.old + length (skip_code name) ≤ vec_capacity out.old }
    ensures items { out.new.items ≡ out.old.items ++ skip_code name }
    ensures len { vec_len out.new ≡ vec_len out.old + length (skip_code name) }
    ensures capacity { vec_capacity out.old ≤ vec_capacity out.new }
{
    let (id, number) = parts_of(name);
    put_number(id.conn.0, out);
    put_number(id.seq, out);
    put_number(number, out);
}

/// The id at the front of the bytes, and the bytes behind it.
#[tactic(auto, unfolding(crate::specs::Codes::id_at))]
pub fn take_id(bytes: &[u8]) -> (RequestId, &[u8])
    ensures id { result.0 ≡ (id_at bytes.now).0 }
    ensures rest { result.1.now ≡ (id_at bytes.now).1 }
{
    let (conn, rest) = take_number(bytes);
    let (seq, rest) = take_number(rest);
    let conn = ConnId(conn);
    (RequestId { conn, seq }, rest)
}

/// The name at the front of the bytes, and the bytes behind it.
#[tactic(auto, unfolding(crate::specs::Codes::skip_at))]
pub(super) fn take_skip(bytes: &[u8]) -> (SkipId, &[u8])
    ensures name { result.0 ≡ (skip_at bytes.now).0 }
    ensures rest { result.1.now ≡ (skip_at bytes.now).1 }
{
    let (id, rest) = take_id(bytes);
    let (number, rest) = take_number(rest);
    if number == 0 {
        (SkipId::Whole(id), rest)
    } else {
        (SkipId::Part(id, number), rest)
    }
}

/// The names at the front of the bytes, and the bytes behind them; `AllocError` where there is no memory for them.
#[tactic(auto, unfolding(crate::specs::Codes::skips_at))]
fn take_skips(alloc: Global, bytes: &[u8]) -> Result<(Vec<SkipId>, &[u8]), AllocError>
    ensures names { IfOk result (λ r. r.0.items ≡ (skips_at bytes.now).0) }
    ensures numbered { IfOk result (λ r. AreNumbered r.0.items) }
    ensures rest { IfOk result (λ r. r.1.now ≡ (skips_at bytes.now).1) }
{
    let (count, mut rest) = take_number(bytes);
    let mut names = Vec::with_capacity(alloc, count as usize)?;
    for _ in 0..count {
        let (name, more) = take_skip(rest);
        names.push(name)?;
        rest = more;
    }
    Ok((names, rest))
}

/// How many bytes a step takes; `None` where that is 2^64 or more.
// Inlined, since whoever makes a step knows which.
#[inline(always)]
#[tactic(auto, unfolding(crate::specs::Codes::step_code))]
fn size_of_step(step: &Step) -> Option<usize>
    ensures { MatchOption result (2 ^ 64 ≤ length (step_code step.now))
        (λ size. (size ≡ length (step_code step.now)) × StepFits step.now) }
{
    match step {
        Step::Open | Step::Take | Step::Settle => Some(1),
        Step::Submit { conn, words } => words_size(words)?.checked_add(1 + number_size(conn.0)),
        Step::Deliver { place } | Step::Repeat { place } => Some(1 + number_size(*place)),
        Step::Run { starved } => size_of_skips(starved.as_slice())?.checked_add(1),
        Step::Collect { conn } | Step::Close { conn } => Some(1 + number_size(conn.0)),
    }
}

/// Takes the room for a step, and for so many bytes more behind it. The only error is want of memory, which changes
/// nothing.
#[inline(always)]
pub fn reserve_step(step: &Step, more: usize, out: &mut Vec<u8>) -> Result<(), AllocError>
    ensures items { out.new.items ≡ out.old.items }
    ensures len { vec_len out.new ≡ vec_len out.old }
    ensures room { OnOk result (vec_len out.new + length (step_code step.now) + more ≤ vec_capacity out.new) }
    ensures fits { OnOk result (StepFits step.now) }
    ensures capacity { vec_capacity out.old ≤ vec_capacity out.new }
    ensures succeeds { vec_len out.old + length (step_code step.now) + more ≤ vec_capacity out.old → IsOk result }
    ensures err { OnErr result (vec_capacity out.new ≡ vec_capacity out.old) }
{
    match size_of_step(step) {
        Some(size) => match size.checked_add(more) {
            Some(size) => grow(out, size),
            None => Err(AllocError),
        },
        None => Err(AllocError),
    }
}

/// Appends a step, for which there is room.
#[tactic(auto, unfolding(crate::specs::Codes::step_code))]
#[inline(always)]
pub fn put_step(step: &Step, out: &mut Vec<u8>)
    requires { vec_len out.old + length (step_code step.now) ≤ vec_capacity out.old }
    ensures items { out.new.items ≡ out.old.items ++ step_code step.now }
    ensures len { vec_len out.new ≡ vec_len out.old + length (step_code step.now) }
    ensures capacity { vec_capacity out.old ≤ vec_capacity out.new }
{
    match step {
        Step::Open => out.push_reserved(OPEN),
        Step::Submit { conn, words } => {
            out.push_reserved(SUBMIT);
            put_number(conn.0, out);
            put_words(words, out);
        }
        Step::Deliver { place } => {
            out.push_reserved(DELIVER);
            put_number(*place, out);
        }
        Step::Take => out.push_reserved(TAKE),
        Step::Run { starved } => {
            out.push_reserved(RUN);
            put_skips(starved.as_slice(), out);
        }
        Step::Settle => out.push_reserved(SETTLE),
        Step::Collect { conn } => {
            out.push_reserved(COLLECT);
            put_number(conn.0, out);
        }
        Step::Close { conn } => {
            out.push_reserved(CLOSE);
            put_number(conn.0, out);
        }
        Step::Repeat { place } => {
            out.push_reserved(REPEAT);
            put_number(*place, out);
        }
    }
}

/// The step at the front of the bytes, and the bytes behind it; `AllocError` where there is no memory for it.
#[tactic(auto, unfolding(crate::specs::Codes::step_at, crate::specs::Codes::step_of, crate::specs::Codes::deliver_at, crate::specs::Codes::run_at, crate::specs::Codes::collect_at, crate::specs::Codes::close_at, crate::specs::Codes::repeat_at))]
pub fn take_step(alloc: Global, bytes: &[u8]) -> Result<(Step, &[u8]), AllocError>
    ensures step { IfOk result (λ r. r.0 ≡ (step_at bytes.now).0) }
    ensures rest { IfOk result (λ r. r.1.now ≡ (step_at bytes.now).1) }
{
    match bytes {
        [SUBMIT, rest @ ..] => take_submit(alloc, rest),
        [DELIVER, rest @ ..] => {
            let (place, rest) = take_number(rest);
            Ok((Step::Deliver { place }, rest))
        }
        [TAKE, rest @ ..] => Ok((Step::Take, rest)),
        [RUN, rest @ ..] => {
            let (names, rest) = take_skips(alloc, rest)?;
            let starved = SkipIds::new(names);
            Ok((Step::Run { starved }, rest))
        }
        [SETTLE, rest @ ..] => Ok((Step::Settle, rest)),
        [COLLECT, rest @ ..] => {
            let (conn, rest) = take_number(rest);
            Ok((Step::Collect { conn: ConnId(conn) }, rest))
        }
        [CLOSE, rest @ ..] => {
            let (conn, rest) = take_number(rest);
            Ok((Step::Close { conn: ConnId(conn) }, rest))
        }
        [REPEAT, rest @ ..] => {
            let (place, rest) = take_number(rest);
            Ok((Step::Repeat { place }, rest))
        }
        [_, rest @ ..] => Ok((Step::Open, rest)),
        [] => Ok((Step::Open, bytes)),
    }
}

#[tactic(auto, unfolding(crate::specs::Codes::submit_at))]
fn take_submit(alloc: Global, bytes: &[u8]) -> Result<(Step, &[u8]), AllocError>
    ensures step { IfOk result (λ r. r.0 ≡ (submit_at bytes.now).0) }
    ensures rest { IfOk result (λ r. r.1.now ≡ (submit_at bytes.now).1) }
{
    let (conn, rest) = take_number(bytes);
    let (words, rest) = take_words(alloc, rest)?;
    if words.is_empty() {
        return Ok((Step::Open, rest));
    }
    let words = Request::from_words(words);
    Ok((
        Step::Submit {
            conn: ConnId(conn),
            words,
        },
        rest,
    ))
}

/// Appends the numbers of a row, which stand before its words: the words take so many bytes. There is room for any
/// such numbers.
#[tactic(auto, using(crate::proofs::CodeLaws::heads))]
pub fn put_head(id: RequestId, stamp: &Stamp, words_size: usize, out: &mut Vec<u8>)
    requires { vec_len out.old + GREATEST_HEAD ≤ vec_capacity out.old }
    ensures items { out.new.items ≡ out.old.items ++ head_code id stamp.now words_size }
    ensures fits { HeadFits id stamp.now }
    ensures len { vec_len out.new ≤ vec_len out.old + GREATEST_HEAD }
    ensures capacity { vec_capacity out.old ≤ vec_capacity out.new }
{
    put_number(id.conn.0, out);
    put_number(id.seq, out);
    put_number(stamp.clock, out);
    put_number(stamp.group.number() as u64, out);
    put_number(words_size as u64, out);
}
