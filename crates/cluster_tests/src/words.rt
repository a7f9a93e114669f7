//! Scripts: steps in words, and what each is to be answered.
//!
//! A line is `STEP; STEP => ANSWER; ANSWER`, or empty. In `TIMES * STEP => ANSWER` the step is made so many times, and `#`
//! stands for the number of the time, from 1. `|` stands for CR LF, `''` for the empty word of a request, and `?` for any
//! answer.

use cluster::Closing;
use resp::{Reply, Request, write_reply};
use std::alloc::Global;
use std::fmt::Debug;
use std::process::Abort;

/// A step, and what it is to be answered.
#[derive(Drop)]
pub(crate) struct Step {
    said: String,
    wanted: String,
}

impl Step {
    /// The step's words.
    pub(crate) fn said(&self) -> &str {
        self.said.as_str()
    }

    /// The step is answered so, as is wanted; else the test ends.
    pub(crate) fn is_answered(&self, rt: &impl Abort, answered: &str) {
        if self.wanted.as_str() != "?" {
            assert_eq!(rt; answered, self.wanted.as_str(), "{}", self.said);
        }
    }
}

/// The steps of a script.
pub(crate) fn steps_of(rt: &impl Abort, alloc: Global, script: &str) -> Vec<Step> {
    let mut steps = Vec::new(alloc);
    for line in script.split('\n') {
        if !line.is_empty() {
            push_line(rt, alloc, &mut steps, line);
        }
    }
    steps
}

/// Adds the steps of a line, as often as it says.
fn push_line(rt: &impl Abort, alloc: Global, steps: &mut Vec<Step>, line: &str) {
    let (times, line) = line.split_once(" * ").unwrap_or(("1", line));
    let (said, wanted) = line.split_once(" => ").expect(rt, "what is wanted");
    for time in 0..number_of(rt, times) {
        push_steps(rt, alloc, steps, said, wanted, time.saturating_add(1));
    }
}

/// Adds the steps of a line for one time.
fn push_steps(
    rt: &impl Abort,
    alloc: Global,
    steps: &mut Vec<Step>,
    said: &str,
    wanted: &str,
    time: usize,
) {
    let mut answers = wanted.split("; ");
    for said in said.split("; ") {
        let wanted = answers.next().expect(rt, "an answer for each step");
        let said = text_of(rt, alloc, said, time);
        let wanted = text_of(rt, alloc, wanted, time);
        done(rt, MEMORY, steps.push(Step { said, wanted }));
    }
    assert!(rt;
        answers.next().is_none(),
        "more answers than steps: {wanted}"
    );
}

/// What words say, with the number of the time for `#`, and CR LF for `|`.
fn text_of(rt: &impl Abort, alloc: Global, words: &str, time: usize) -> String {
    let mut text = String::new(alloc);
    for letter in words.chars() {
        let pushed = match letter {
            '#' => write!(text, "{time}"),
            '|' => text.push_str("\r\n"),
            letter => text.push(letter),
        };
        done(rt, MEMORY, pushed);
    }
    text
}

/// What is said where there is no memory for a test's own work.
pub(crate) const MEMORY: &str = "there is memory";

/// What a call gives that is not refused; else the test ends.
pub(crate) fn done<T, E: Drop>(rt: &impl Abort, said: &str, given: Result<T, E>) -> T {
    match given {
        Ok(value) => value,
        Err(_) => panic!(rt; "{said}: it is not so"),
    }
}

/// The first word, and what stands behind the blank that ends it.
pub(crate) fn first_word(words: &str) -> (&str, &str) {
    words.split_once(' ').unwrap_or((words, ""))
}

/// The number that a text spells.
pub(crate) fn number_of(rt: &impl Abort, text: &str) -> usize {
    done(rt, text, text.parse::<usize>())
}

/// The request of these words, which are parted by blanks.
pub(crate) fn request_of(rt: &impl Abort, alloc: Global, words: &str) -> Request {
    let mut copies = Vec::new(alloc);
    for word in words.split(' ') {
        let word = if word == "''" { "" } else { word };
        let copy = done(rt, MEMORY, Vec::from_slice(alloc, word.as_bytes()));
        done(rt, MEMORY, copies.push(copy));
    }
    assert!(rt; !copies.is_empty(), "no words");
    Request::from_words(copies)
}

/// The text of a reply.
pub(crate) fn reply_text(rt: &impl Abort, alloc: Global, reply: Reply) -> String {
    let mut text = Vec::new(alloc);
    done(rt, MEMORY, write_reply(&reply, &mut text));
    done(rt, "the reply is text", String::from_utf8(text))
}

/// A word, as an answer.
pub(crate) fn word(rt: &impl Abort, alloc: Global, word: &str) -> String {
    done(rt, MEMORY, String::from_str(alloc, word))
}

/// A number, as an answer.
pub(crate) fn number(rt: &impl Abort, alloc: Global, number: u64) -> String {
    done(rt, MEMORY, format!(in alloc; "{number}"))
}

/// The name of a fault, as an answer.
pub(crate) fn fault<F: Debug>(rt: &impl Abort, alloc: Global, fault: &F) -> String {
    done(rt, MEMORY, format!(in alloc; "{fault:?}"))
}

/// How a cluster closes: how many requests were submitted, how many executed and how many starved; or why it doesn't.
pub(crate) fn closed<F: Debug>(
    rt: &impl Abort,
    alloc: Global,
    closed: &Result<Closing, F>,
) -> String {
    match closed {
        Ok(it) => {
            let (requests, executed, starved) = (it.requests(), it.executed(), it.starved());
            let text = format!(in alloc; "closed {requests} {executed} {starved}");
            done(rt, MEMORY, text)
        }
        Err(why) => fault(rt, alloc, why),
    }
}

/// What is at the place of the connection of this number, from 1.
pub(crate) fn at<'a, P>(rt: &impl Abort, all: &'a mut Vec<Option<P>>, conn: &str) -> &'a mut P {
    match all.get_mut(number_of(rt, conn).wrapping_sub(1)) {
        Some(Some(it)) => it,
        _ => panic!(rt; "nobody is at {conn}"),
    }
}

/// Takes away what is at the place of the connection of this number, from 1.
pub(crate) fn away<P>(rt: &impl Abort, all: &mut Vec<Option<P>>, conn: &str) -> P {
    match all.get_mut(number_of(rt, conn).wrapping_sub(1)) {
        Some(place) => place.take().expect(rt, "it is there"),
        None => panic!(rt; "nobody was at {conn}"),
    }
}
