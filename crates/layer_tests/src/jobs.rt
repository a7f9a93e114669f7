//! Jobs from the words of a request, and replies as the text that a client gets.

use crate::trouble::Trouble;
use groups::{ConnId, Groups, RequestId, SkipId, Stamp};
use layer_planner::{Job, Layer};
use packing::PackedRequest;
use placement::{GroupId, Table};
use resp::{Answered, Request, write_reply};
use sessions::Batch;
use shard_exec::{Ended, ExecFault, Store};
use shard_workers::{Gate, InTurn, OpenGate, Workers};
use std::alloc::{AllocError, Global};
use std::num::NonZeroUsize;
use std::process::Abort;
use std::test::Fail;
use tasks::task_groups;
use test_support::same_text;
use worded::{Worded, read_batch};

/// One worker, and no thread.
pub(crate) const ONE: InTurn = InTurn(NonZeroUsize::MIN);

/// Makes a set of 100 members at `x`.
pub(crate) const FILL_X: &str =
    "SADD x 00 01 02 03 04 05 06 07 08 09 10 11 12 13 14 15 16 17 18 19 20 21 22 23 24 25 26 27 28 29 \
    30 31 32 33 34 35 36 37 38 39 40 41 42 43 44 45 46 47 48 49 50 51 52 53 54 55 56 57 58 59 60 \
    61 62 63 64 65 66 67 68 69 70 71 72 73 74 75 76 77 78 79 80 81 82 83 84 85 86 87 88 89 90 91 \
    92 93 94 95 96 97 98 99";

/// Names that set 100 times, which is 10,000 members: a layer that has this request beside another unit is dealt to several
/// workers.
pub(crate) const NAME_X: &str =
    "EXISTS x x x x x x x x x x x x x x x x x x x x x x x x x x x x x x x x x x x x x x x x x x x x x \
    x x x x x x x x x x x x x x x x x x x x x x x x x x x x x x x x x x x x x x x x x x x x x x \
    x x x x x x x x x";

/// So many workers, or one.
pub(crate) fn number_of(workers: usize) -> NonZeroUsize {
    NonZeroUsize::new(workers).unwrap_or(NonZeroUsize::MIN)
}

/// Two shards: `a`, `b` and `y` lie on 0, `c`, `d`, `x` and `z` on 1.
pub(crate) fn two_shards(alloc: Global) -> Result<Table, Trouble> {
    table_of(alloc, 2)
}

/// So many shards, each with as many slots.
pub(crate) fn table_of(alloc: Global, shards: u64) -> Result<Table, Trouble> {
    if shards == 0 || shards > 64 {
        return Err(Trouble::Asked);
    }
    let mut text = format!(in alloc; "shards = {shards}\n")?;
    for shard in 0..shards {
        let (from, to) = (shard * 1024 / shards, (shard + 1) * 1024 / shards - 1);
        write!(
            text,
            "[[range]]\nfrom = {from}\nto = {to}\nshard = {shard}\n"
        )?;
    }
    Ok(Table::from_toml(alloc, text.as_str())?)
}

/// Puts the words behind that are separated by blanks.
fn push_words(alloc: Global, copies: &mut Vec<Vec<u8>>, words: &str) -> Result<(), AllocError> {
    for word in words.split(' ') {
        copies.push(Vec::from_slice(alloc, word.as_bytes())?)?;
    }
    Ok(())
}

/// The request of these words, separated by blanks.
fn request(alloc: Global, words: &str) -> Result<Request, Trouble> {
    let mut copies = Vec::new(alloc);
    push_words(alloc, &mut copies, words)?;
    if copies.is_empty() {
        return Err(Trouble::Asked);
    }
    Ok(Request::from_words(copies))
}

/// The words of a member, separated by blanks, packed in one word.
fn packed(alloc: Global, words: &str) -> Result<Vec<u8>, Trouble> {
    let request = request(alloc, words)?;
    let packed = PackedRequest::copy_of(alloc, &request)?;
    Ok(Vec::from_slice(alloc, packed.as_bytes())?)
}

/// Puts a word behind for each member, which are separated by `; `.
fn push_members(alloc: Global, copies: &mut Vec<Vec<u8>>, members: &str) -> Result<(), Trouble> {
    for member in members.split("; ") {
        copies.push(packed(alloc, member)?)?;
    }
    Ok(())
}

/// The words that say an EXEC of these members, separated by `; `.
fn exec_words(alloc: Global, members: &str) -> Result<Request, Trouble> {
    let mut copies = Vec::new(alloc);
    copies.push(Vec::from_slice(alloc, b"exec")?)?;
    push_members(alloc, &mut copies, members)?;
    if copies.is_empty() {
        return Err(Trouble::Asked);
    }
    Ok(Request::from_words(copies))
}

/// An EXEC of these members, separated by `; `.
fn exec_of(alloc: Global, members: &str) -> Result<Worded, Trouble> {
    let words = exec_words(alloc, members)?;
    let copy = PackedRequest::copy_of(alloc, &words)?;
    match read_batch(alloc, words)? {
        Batch::Exec(members) => Ok(Worded::of_members(copy, members)),
        Batch::Plain(_) => Err(Trouble::Asked),
    }
}

/// What these words ask: an EXEC, where a `; ` separates its members, else a command.
fn asked_of(alloc: Global, words: &str) -> Result<Worded, Trouble> {
    if words.contains("; ") {
        return exec_of(alloc, words);
    }
    let request = request(alloc, words)?;
    Ok(Worded::read(alloc, request)?)
}

/// The greatest of these groups, or 0.
pub(crate) fn last_of(groups: &Groups) -> GroupId {
    let mut last = GroupId::new(0);
    for group in groups.iter() {
        last = group;
    }
    last
}

/// The job of what is asked: its id is (1, seq), and its stamp is of its greatest group.
fn job_of(table: &Table, seq: u64, clock: u64, asked: Worded) -> Job {
    let groups = task_groups(table, asked.batch());
    Job {
        id: RequestId {
            conn: ConnId(1),
            seq,
        },
        stamp: Stamp {
            clock,
            group: last_of(&groups),
        },
        groups,
        asked,
    }
}

/// Puts the job of these words behind. Its id is (1, seq).
pub(crate) fn push_job(
    alloc: Global,
    table: &Table,
    jobs: &mut Vec<Job>,
    seq: u64,
    clock: u64,
    words: &str,
) -> Result<(), Trouble> {
    let asked = asked_of(alloc, words)?;
    jobs.push(job_of(table, seq, clock, asked))?;
    Ok(())
}

/// The layer of these jobs.
pub(crate) fn layer(jobs: Vec<Job>) -> Result<Layer, Trouble> {
    Ok(Layer::gather(jobs).ok_or("a group in two units")?)
}

/// The layer of the requests of these words at this clock, whose ids are numbered from 1.
pub(crate) fn layer_of(
    alloc: Global,
    table: &Table,
    clock: u64,
    asked: &[&str],
) -> Result<Layer, Trouble> {
    let mut jobs = Vec::new(alloc);
    push_jobs(alloc, table, &mut jobs, clock, asked)?;
    layer(jobs)
}

/// Puts the jobs of the requests of these words behind, all at this clock.
fn push_jobs(
    alloc: Global,
    table: &Table,
    jobs: &mut Vec<Job>,
    clock: u64,
    asked: &[&str],
) -> Result<(), Trouble> {
    let mut seq = 0u64;
    for words in asked {
        seq = seq.wrapping_add(1);
        push_job(alloc, table, jobs, seq, clock, words)?;
    }
    Ok(())
}

/// Lets a value go. What that takes for each of its kinds is seen here alone.
pub(crate) fn discard<T: Drop>(_value: T) {}

/// Runs a layer, and lets these of its requests, and of their members, starve.
pub(crate) fn run_or_not<W: Workers>(
    rt: &impl Abort,
    alloc: Global,
    store: &mut Store,
    layer: Layer,
    starved: &[SkipId],
    workers: &W,
    gate: &(dyn Gate + Sync),
) -> Result<Vec<Ended>, ExecFault> {
    assert!(rt; store.may_run(&layer), "groups of another table");
    store.run_layer(alloc, layer, starved, workers, gate)
}

/// Runs a layer. What its requests were answered, or why it wasn't run.
pub(crate) fn answers<W: Workers>(
    rt: &impl Abort,
    alloc: Global,
    store: &mut Store,
    layer: Layer,
    workers: &W,
    gate: &(dyn Gate + Sync),
) -> Result<String, Trouble> {
    answers_but(rt, alloc, store, layer, &[], workers, gate)
}

/// The same, where these of its requests, and of their members, are to starve.
pub(crate) fn answers_but<W: Workers>(
    rt: &impl Abort,
    alloc: Global,
    store: &mut Store,
    layer: Layer,
    starved: &[SkipId],
    workers: &W,
    gate: &(dyn Gate + Sync),
) -> Result<String, Trouble> {
    let outcome = run_or_not(rt, alloc, store, layer, starved, workers, gate);
    let told = told(alloc, &outcome);
    discard(outcome);
    told
}

/// What became of a layer: what its requests were answered, or why it wasn't run and how many of them come back.
fn told(alloc: Global, outcome: &Result<Vec<Ended>, ExecFault>) -> Result<String, Trouble> {
    match outcome {
        Ok(done) => text(alloc, done.as_slice()),
        Err(ExecFault::Stale(layer)) => Ok(format!(in alloc; "stale {}", layer.len())?),
        Err(ExecFault::Memory(layer)) => Ok(format!(in alloc; "no memory {}", layer.len())?),
        Err(ExecFault::Failed) => Ok(String::from_str(alloc, "failed")?),
        Err(ExecFault::Foreign(layer)) => Ok(format!(in alloc; "foreign {}", layer.len())?),
    }
}

/// What was answered, with blanks between; `starved` where there is no reply.
pub(crate) fn text(alloc: Global, done: &[Ended]) -> Result<String, Trouble> {
    let mut bytes = Vec::new(alloc);
    push_answers(&mut bytes, done)?;
    string(bytes)
}

/// The text of these bytes.
pub(crate) fn string(bytes: Vec<u8>) -> Result<String, Trouble> {
    Ok(String::from_utf8(bytes).ok().ok_or("not text")?)
}

/// Puts behind what was answered.
fn push_answers(bytes: &mut Vec<u8>, done: &[Ended]) -> Result<(), AllocError> {
    for ended in done {
        push_answer(bytes, ended.reply.as_ref())?;
    }
    Ok(())
}

/// Puts a reply behind, or `starved`, and a blank.
fn push_answer(bytes: &mut Vec<u8>, answered: Option<&Answered>) -> Result<(), AllocError> {
    match answered {
        Some(answered) => write_reply(&answered.reply, bytes)?,
        None => bytes.extend_from_slice(b"starved")?,
    }
    bytes.extend_from_slice(b" ")
}

/// Runs a layer of one request, and gives what became of it.
pub(crate) fn ask(
    rt: &impl Abort,
    alloc: Global,
    store: &mut Store,
    table: &Table,
    clock: u64,
    words: &str,
) -> Result<String, Trouble> {
    let asked = layer_of(alloc, table, clock, &[words])?;
    answers(rt, alloc, store, asked, &ONE, &OpenGate)
}

/// A layer of one request: its clock, its words, and what becomes of it.
pub(crate) type Asked = (u64, &'static str, &'static str);

/// Runs layers of one request one after another.
pub(crate) fn ask_rows(
    rt: &impl Abort,
    alloc: Global,
    store: &mut Store,
    table: &Table,
    rows: &[Asked],
) -> Result<(), Fail> {
    for row in rows {
        ask_row(rt, alloc, store, table, row)?;
    }
    Ok(())
}

/// Runs a layer of one request. That becomes of it which is wanted.
fn ask_row(
    rt: &impl Abort,
    alloc: Global,
    store: &mut Store,
    table: &Table,
    row: &Asked,
) -> Result<(), Fail> {
    let (clock, words, wanted) = *row;
    let answered = ask(rt, alloc, store, table, clock, words)?;
    same_text(words, answered.as_str(), wanted)
}

/// Makes the set at `x`, at this clock.
pub(crate) fn fill_x(
    rt: &impl Abort,
    alloc: Global,
    store: &mut Store,
    table: &Table,
    clock: u64,
) -> Result<(), Fail> {
    ask_row(rt, alloc, store, table, &(clock, FILL_X, ":100\r\n "))
}

/// Runs layers of one request one after another, in a new store of two shards.
pub(crate) fn ask_anew(rt: &impl Abort, alloc: Global, rows: &[Asked]) -> Result<(), Fail> {
    let table = two_shards(alloc)?;
    let mut store = Store::new(alloc, table)?;
    ask_rows(rt, alloc, &mut store, &table, rows)
}

/// Runs a layer. That becomes of it which is wanted.
pub(crate) fn ask_all<W: Workers>(
    rt: &impl Abort,
    alloc: Global,
    store: &mut Store,
    asked: Layer,
    workers: &W,
    gate: &(dyn Gate + Sync),
    wanted: &str,
) -> Result<(), Fail> {
    let answered = answers(rt, alloc, store, asked, workers, gate)?;
    same_text("what became of a layer", answered.as_str(), wanted)
}
