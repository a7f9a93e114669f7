//! Many requests of several connections, lists of MULTI among them, whose packets come in any order, and some more than once,
//! against one store on one map.

use crate::answers::{ask, assert_holds, deliver_all, discard, follow, make, run_layers};
use crate::steps::step_of;
use crate::tables::system_of;
use crate::trouble::Trouble;
use crate::wording::{by_stamp, push_rows};
use groups::RequestId;
use journal::{Row, Rows};
use resp::{Reply, write_reply};
use router::Outcome;
use shard_crew::Crew;
use shard_workers::{InTurn, OpenGate, Workers};
use solo::Solo;
use std::alloc::Global;
use std::hash::{BuildHasherDefault, FoldHasher};
use std::num::NonZeroUsize;
use std::process::Abort;
use std::test::Fail;
use system::{Effect, StepFault, System};
use test_support::{Dice, same_text};
use worded::read_batch;

/// One store on one map.
type Store = Solo<BuildHasherDefault<FoldHasher>>;

/// How many connections ask.
const CONNECTIONS: u64 = 8;

const OPENED: &str = "open; open; open; open => opened 1; opened 2; opened 3; opened 4
open; open; open; open => opened 5; opened 6; opened 7; opened 8";

/// A set, so that layers with a request that names it often have work for several workers.
const FILLED: &str = "ask 1 SADD x 00..99 => 1.1 at 1.3 :100|";

/// Requests in which `K` stands for one of 12 keys, and `N` for a number below 50.
const REQUESTS: [&str; 33] = [
    "SET K N",
    "SET K N NX",
    "GET K",
    "INCRBY K N",
    "APPEND K N",
    "MSET K N K N",
    "MSETNX K N K N K N",
    "MGET K K K K",
    "DEL K K",
    "EXISTS K K",
    "EXISTS x*100",
    "EXISTS K x*100",
    "RENAME K K",
    "RENAMENX K K",
    "TYPE K",
    "RPUSH K N N",
    "LMOVE K K LEFT RIGHT",
    "LRANGE K 0 -1",
    "SADD K N N N",
    "SMOVE K K N",
    "SUNIONSTORE K K K",
    "SINTER K K",
    "HSET K N N",
    "HGETALL K",
    "DBSIZE",
    "PING N",
    "MULTI",
    "MULTI",
    "EXEC",
    "EXEC",
    "EXEC",
    "EXEC",
    "EXEC N",
];

/// Requests of a key, with what stands before and behind it, that tell all that lies there, whatever its type.
const LOOKS: [(&str, &str); 5] = [
    ("TYPE", ""),
    ("GET", ""),
    ("LRANGE", " 0 -1"),
    ("HGETALL", ""),
    ("SMEMBERS", ""),
];

/// Adds one of the requests, with its keys and numbers, a blank before each word.
fn push_request(text: &mut String, dice: &mut Dice) -> Result<(), Trouble> {
    let place = dice.below(33) as usize;
    let pattern = REQUESTS.get(place).ok_or("no such request")?;
    for word in pattern.split(' ') {
        push_word(text, word, dice)?;
    }
    Ok(())
}

/// Adds a word of a request, with a key or a number in its place, behind a blank.
fn push_word(text: &mut String, word: &str, dice: &mut Dice) -> Result<(), Trouble> {
    text.push(' ')?;
    match word {
        "K" => {
            text.push('k')?;
            push_number(text, dice.below(12))
        }
        "N" => push_number(text, dice.below(50)),
        word => Ok(text.push_str(word)?),
    }
}

fn push_number(text: &mut String, number: u64) -> Result<(), Trouble> {
    Ok(write!(text, "{number}")?)
}

/// A request of this connection.
fn some_submit(alloc: Global, conn: u64, dice: &mut Dice) -> Result<String, Trouble> {
    let mut text = format!(in alloc; "submit {conn}")?;
    push_request(&mut text, dice)?;
    Ok(text)
}

/// The step of this name with one of the packets.
fn at_some_packet(
    alloc: Global,
    name: &str,
    packets: usize,
    dice: &mut Dice,
) -> Result<String, Trouble> {
    let place = dice.below(packets as u64);
    Ok(format!(in alloc; "{name} {place}")?)
}

/// A step of one of the eight connections, or of none, which perhaps can't be made now.
fn some_step(alloc: Global, packets: usize, dice: &mut Dice) -> Result<String, Trouble> {
    let conn = dice.below(CONNECTIONS).wrapping_add(1);
    match dice.below(17) {
        0..=2 => some_submit(alloc, conn, dice),
        3..=10 => at_some_packet(alloc, "deliver", packets, dice),
        16 => at_some_packet(alloc, "repeat", packets, dice),
        11 => Ok(String::from_str(alloc, "take")?),
        12 => Ok(String::from_str(alloc, "run")?),
        13 => Ok(String::from_str(alloc, "settle")?),
        _ => Ok(format!(in alloc; "collect {conn}")?),
    }
}

/// Makes the step, if it can be made now. That it can't is told by the step's own fault.
fn make_or_not<W: Workers>(
    rt: &impl Abort,
    alloc: Global,
    system: &mut System,
    words: &str,
    workers: &W,
) -> Result<(), Trouble> {
    let step = step_of(alloc, words)?;
    match system.step(step, workers, &OpenGate) {
        Ok(effect) => {
            let looked = look_at_effect(rt, alloc, system.rows(), &effect);
            discard(effect);
            looked
        }
        Err(StepFault::Exhausted | StepFault::Memory | StepFault::Failed) => {
            Err("not the step's own fault".into())
        }
        Err(_) => Ok(()),
    }
}

/// Looks at the reply, if one was collected.
fn look_at_effect(
    rt: &impl Abort,
    alloc: Global,
    rows: &Rows,
    effect: &Effect,
) -> Result<(), Trouble> {
    match effect {
        Effect::Collected(Some(outcome)) => look_at_reply(rt, alloc, rows, outcome),
        _ => Ok(()),
    }
}

/// Looks whether the reply that a client gets is that of its request's row. A request of no group has none.
fn look_at_reply(
    rt: &impl Abort,
    alloc: Global,
    rows: &Rows,
    outcome: &Outcome,
) -> Result<(), Trouble> {
    if outcome.stamp.is_none() {
        return Ok(());
    }
    let place = place_in(rows, outcome.id).ok_or("a request without a row")?;
    let row = rows.row(place).ok_or("no such row")?;
    assert_reply(rt, alloc, &row, &outcome.reply)
}

/// The place of a request's row.
fn place_in(rows: &Rows, id: RequestId) -> Option<usize> {
    for place in 0..rows.len() {
        if let Some(row) = rows.row(place) {
            if row.id() == id {
                return Some(place);
            }
        }
    }
    None
}

/// This is the reply of the row.
fn assert_reply(
    rt: &impl Abort,
    alloc: Global,
    row: &Row<'_>,
    reply: &Reply,
) -> Result<(), Trouble> {
    let mut text = Vec::new(alloc);
    write_reply(reply, &mut text)?;
    assert_holds(rt, "the reply of the row", row.reply() == text.as_slice());
    Ok(())
}

/// Makes a step at random, if it can be made now.
fn play_step<W: Workers>(
    rt: &impl Abort,
    alloc: Global,
    system: &mut System,
    dice: &mut Dice,
    workers: &W,
) -> Result<(), Trouble> {
    let words = some_step(alloc, system.packets(), dice)?;
    make_or_not(rt, alloc, system, words.as_str(), workers)
}

/// Makes 16,000 steps at random.
fn play_steps<W: Workers>(
    rt: &impl Abort,
    alloc: Global,
    system: &mut System,
    workers: &W,
) -> Result<(), Trouble> {
    let mut dice = Dice::new(88_172_645_463_325_252);
    for _ in 0..16_000u32 {
        play_step(rt, alloc, system, &mut dice, workers)?;
    }
    Ok(())
}

/// Ends what is under way.
fn end<W: Workers>(
    rt: &impl Abort,
    alloc: Global,
    system: &mut System,
    workers: &W,
) -> Result<(), Trouble> {
    make_or_not(rt, alloc, system, "run", workers)?;
    make_or_not(rt, alloc, system, "settle", workers)?;
    deliver_all(system, workers)?;
    run_layers(alloc, system, workers)
}

/// Makes steps at random, then ends what is under way, and at last asks for all that lies at the keys.
fn play<W: Workers>(
    rt: &impl Abort,
    alloc: Global,
    system: &mut System,
    workers: &W,
) -> Result<(), Trouble> {
    follow(rt, alloc, system, OPENED, workers)?;
    follow(rt, alloc, system, FILLED, workers)?;
    play_steps(rt, alloc, system, workers)?;
    end(rt, alloc, system, workers)?;
    look_at_all(alloc, system, workers)
}

/// Has a connection of its own, the ninth, ask for all that lies at the keys.
fn look_at_all<W: Workers>(alloc: Global, system: &mut System, workers: &W) -> Result<(), Trouble> {
    make(alloc, system, "open", workers)?;
    for key in 0..12u32 {
        look_at_key(alloc, system, key, workers)?;
    }
    Ok(())
}

/// Has the ninth connection ask for all that lies at a key.
fn look_at_key<W: Workers>(
    alloc: Global,
    system: &mut System,
    key: u32,
    workers: &W,
) -> Result<(), Trouble> {
    for (before, behind) in LOOKS {
        let asked = format!(in alloc; "9 {before} k{key}{behind}")?;
        ask(alloc, system, asked.as_str(), workers)?;
    }
    Ok(())
}

/// Whether these are 0, 1, 2 and so on.
fn is_counted(places: &[usize]) -> bool {
    for (count, place) in places.iter().enumerate() {
        if count != *place {
            return false;
        }
    }
    true
}

/// Looks whether the reply of the row at this place is what one store gives now, a list's members one after another.
fn look_at_row(
    rt: &impl Abort,
    alloc: Global,
    one: &mut Store,
    rows: &Rows,
    place: usize,
) -> Result<(), Trouble> {
    let row = rows.row(place).ok_or("no such row")?;
    match read_batch(alloc, row.request(alloc)?) {
        Ok(batch) => assert_reply(rt, alloc, &row, &one.run_batch(batch, &[])),
        Err(_) => Err("a refused request".into()),
    }
}

/// Looks whether the replies are those of one store that runs the executed requests in the order of these places, which
/// are ascending by stamp.
fn look_at_rows(
    rt: &impl Abort,
    alloc: Global,
    one: &mut Store,
    rows: &Rows,
    places: &[usize],
) -> Result<(), Trouble> {
    for place in places {
        look_at_row(rt, alloc, one, rows, *place)?;
    }
    Ok(())
}

/// How many rows are of lists.
fn lists_in(rows: &Rows) -> usize {
    let mut count: usize = 0;
    for place in 0..rows.len() {
        if let Some(row) = rows.row(place) {
            if row.word_count() > 0 && row.word(0) == b"exec".as_slice() {
                count = count.saturating_add(1);
            }
        }
    }
    count
}

/// The rows, more than 300, more than 10 of them of lists, and not executed in the order of their stamps, are answered as by
/// one new store.
fn assert_as_one(rt: &impl Abort, alloc: Global, rows: &Rows) -> Result<(), Trouble> {
    assert_holds(rt, "many requests", rows.len() > 300);
    assert_holds(rt, "many lists", lists_in(rows) > 10);
    let places = by_stamp(alloc, rows)?;
    let counted = is_counted(places.as_slice());
    assert_holds(
        rt,
        "executed in another order than that of stamps",
        !counted,
    );
    let mut one = Solo::new(alloc, BuildHasherDefault::<FoldHasher>::new());
    look_at_rows(rt, alloc, &mut one, rows, places.as_slice())
}

/// What was played is at rest, and its rows are those of one store. All rows as text.
fn rows_of(rt: &impl Abort, alloc: Global, system: &System) -> Result<String, Trouble> {
    assert_holds(rt, "nothing is under way", system.quiet());
    assert_holds(rt, "no request starved", system.starved().is_empty());
    assert_as_one(rt, alloc, system.rows())?;
    let mut text = String::new(alloc);
    push_rows(alloc, &mut text, system.rows())?;
    Ok(text)
}

/// Plays in a system, and looks at its rows. All rows as text.
fn rows_in<W: Workers>(
    rt: &impl Abort,
    alloc: Global,
    system: &mut System,
    workers: &W,
) -> Result<String, Trouble> {
    play(rt, alloc, system, workers)?;
    rows_of(rt, alloc, system)
}

/// Plays in a new system of four shards. All rows as text.
fn played<W: Workers>(rt: &impl Abort, alloc: Global, workers: &W) -> Result<String, Trouble> {
    let mut system = system_of(alloc, 4, 1_000_000)?;
    rows_in(rt, alloc, &mut system, workers)
}

/// Plays by these workers: the rows are to be the same.
fn same_rows<W: Workers>(
    rt: &impl Abort,
    alloc: Global,
    workers: &W,
    first: &str,
) -> Result<(), Fail> {
    let rows = played(rt, alloc, workers)?;
    same_text("the rows of several workers", rows.as_str(), first)
}

#[test]
fn as_one_store_in_the_order_of_stamps(rt: HostRuntime) -> Result<(), Fail> {
    let first = played(&rt, rt.alloc(), &InTurn(NonZeroUsize::MIN))?;
    for number in [2, 8] {
        let number = NonZeroUsize::new(number).ok_or("a number of workers")?;
        same_rows(&rt, rt.alloc(), &InTurn(number), first.as_str())?;
        same_rows(&rt, rt.alloc(), &Crew::new(&rt, number), first.as_str())?;
    }
    Ok(())
}
