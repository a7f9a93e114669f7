//! Steps in words.

ghost use Rattle.std.specs.Prelude.{◌≤◌, IfOk};
ghost use Rattle.journal.specs.Names.{IsNumbered};

use crate::trouble::Trouble;
use groups::{ConnId, RequestId, SkipId};
use journal::{SkipIds, Step};
use resp::Request;
use std::alloc::Global;

/// The first word, and what stands behind the blank that ends it.
pub(crate) fn first_word(words: &str) -> (&str, &str) {
    words.split_once(' ').unwrap_or((words, ""))
}

/// The steps that a list says, which is parted by `; `.
pub(crate) fn steps_of(alloc: Global, list: &str) -> Result<Vec<Step>, Trouble> {
    let mut steps = Vec::new(alloc);
    for words in list.split("; ") {
        steps.push(step_of(alloc, words)?)?;
    }
    Ok(steps)
}

/// The step that these words say: `open`, `submit CONN WORD ..`, `deliver PLACE`, `take`, `run`, `run NAME ..` where these
/// requests and members of requests are to starve, `settle`, `collect CONN`, `close CONN` or `repeat PLACE`.
pub(crate) fn step_of(alloc: Global, words: &str) -> Result<Step, Trouble> {
    let (name, rest) = first_word(words);
    match name {
        "open" => Ok(Step::Open),
        "submit" => submit_of(alloc, rest),
        "deliver" => Ok(Step::Deliver {
            place: number_of(rest)?,
        }),
        "take" => Ok(Step::Take),
        "run" => run_of(alloc, rest),
        "settle" => Ok(Step::Settle),
        "collect" => Ok(Step::Collect {
            conn: conn_of(rest)?,
        }),
        "close" => Ok(Step::Close {
            conn: conn_of(rest)?,
        }),
        "repeat" => Ok(Step::Repeat {
            place: number_of(rest)?,
        }),
        _ => Err("no step has this name".into()),
    }
}

/// The number that this text spells.
fn number_of(text: &str) -> Result<u64, Trouble> {
    Ok(text.parse()?)
}

/// The connection whose number this is.
pub(crate) fn conn_of(text: &str) -> Result<ConnId, Trouble> {
    Ok(ConnId(number_of(text)?))
}

/// The place that this text spells.
pub(crate) fn place_of(text: &str) -> Result<usize, Trouble> {
    Ok(text.parse()?)
}

fn submit_of(alloc: Global, words: &str) -> Result<Step, Trouble> {
    let (conn, words) = first_word(words);
    Ok(Step::Submit {
        conn: conn_of(conn)?,
        words: request_of(alloc, words)?,
    })
}

/// The request of these words, which are parted by blanks. `00..99` stands for the numbers of two digits, and `WORD*100` for
/// a hundred times this word.
pub(crate) fn request_of(alloc: Global, words: &str) -> Result<Request, Trouble> {
    let mut copies = Vec::new(alloc);
    for said in words.split(' ') {
        push_said(alloc, &mut copies, said)?;
    }
    if copies.is_empty() {
        return Err("no words".into());
    }
    Ok(Request::from_words(copies))
}

/// Adds the words that one stands for.
fn push_said(alloc: Global, copies: &mut Vec<Vec<u8>>, said: &str) -> Result<(), Trouble> {
    if said == "00..99" {
        return push_numbers(alloc, copies);
    }
    match said.strip_suffix("*100") {
        Some(word) => push_often(alloc, copies, word),
        None => push_word(alloc, copies, said),
    }
}

/// Adds the numbers of two digits.
fn push_numbers(alloc: Global, copies: &mut Vec<Vec<u8>>) -> Result<(), Trouble> {
    for number in 0..100u32 {
        let word = format!(in alloc; "{}{}", number / 10, number % 10)?;
        push_word(alloc, copies, word.as_str())?;
    }
    Ok(())
}

/// Adds a word a hundred times.
fn push_often(alloc: Global, copies: &mut Vec<Vec<u8>>, word: &str) -> Result<(), Trouble> {
    for _ in 0..100u32 {
        push_word(alloc, copies, word)?;
    }
    Ok(())
}

/// Adds a word.
fn push_word(alloc: Global, copies: &mut Vec<Vec<u8>>, word: &str) -> Result<(), Trouble> {
    copies.push(Vec::from_slice(alloc, word.as_bytes())?)?;
    Ok(())
}

fn run_of(alloc: Global, list: &str) -> Result<Step, Trouble> {
    let mut names = Vec::new(alloc);
    for name in list.split_whitespace() {
        names.push(name_of(name)?)?;
    }
    Ok(Step::Run {
        starved: SkipIds::new(names),
    })
}

/// The request of a name `CONN.SEQ`, or a member of it by a name `CONN.SEQ.NUMBER`.
fn name_of(name: &str) -> Result<SkipId, Trouble>
    ensures { IfOk result IsNumbered }
{
    let (conn, rest) = name.split_once('.').ok_or("no name")?;
    match rest.split_once('.') {
        None => Ok(SkipId::Whole(id_of(conn, rest)?)),
        Some((seq, number)) => Ok(SkipId::Part(id_of(conn, seq)?, member_of(number)?)),
    }
}

/// The number of a member, from 1.
fn member_of(text: &str) -> Result<u64, Trouble>
    ensures { IfOk result (λ number. 1 ≤ number) }
{
    let number = number_of(text)?;
    if number == 0 {
        return Err("members are numbered from 1".into());
    }
    Ok(number)
}

/// The request of this number of a connection.
fn id_of(conn: &str, seq: &str) -> Result<RequestId, Trouble> {
    Ok(RequestId {
        conn: conn_of(conn)?,
        seq: number_of(seq)?,
    })
}
