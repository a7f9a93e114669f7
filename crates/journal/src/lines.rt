//! The steps of a trace's lines.

ghost use Rattle.std.specs.Prelude.{◌≡◌, ◌∷◌, [], ◌<◌, length, IfOk, IfSome, MatchOption, option_map};
ghost use Rattle.texts.specs.Texts.{texts_of};
ghost use Rattle.journal.specs.TraceText.{alone, all_in, only_number, parts_in, run_in, skip_in, step_in, submit_in, word_in, words_of};
ghost use Rattle.journal.specs.Names.{AreNumbered};

use super::parts::{cut_at, number_in, skip_in, word_in};
use super::skip_ids::SkipIds;
use super::step::Step;
use groups::{ConnId, SkipId};
use resp::Request;
use sessions::is_control;
use std::alloc::{AllocError, Global};
use std::marker::Model;

/// The parts of a line behind its first space, to be read one after another. Contracts see those that are left.
#[derive(Drop)]
struct Args<'a> {
    rest: Option<&'a [u8]>,
}

impl<'a> Model for Args<'a> {
    ghost use Rattle.std.specs.Prelude.{ℕ, List, option_map};
    ghost use Rattle.journal.specs.TraceText.{args_in};

    ghost Value = { List (List ℕ) };

    ghost view = { λ a. args_in (option_map (λ r. r.now) a.rest) };
}

impl<'a> Args<'a> {
    /// The next part.
    fn next(&mut self) -> Option<&'a [u8]>
        ensures { MatchOption result ((self.old ≡ []) × (self.new ≡ [])) (λ part. self.old ≡ part.now ∷ self.new) }
    {
        let rest = self.rest?;
        let (part, more) = cut_at(rest, b' ');
        self.rest = more;
        Some(part)
    }
}

/// The first part of a line, and those behind it.
fn parts_in(line: &[u8]) -> (&[u8], Args<'_>)
    ensures name { result.0.now ≡ (parts_in line.now).0 }
    ensures args { result.1 ≡ (parts_in line.now).1 }
{
    let (name, rest) = cut_at(line, b' ');
    (name, Args { rest })
}

/// The step, if nothing stands behind its name.
fn alone(step: Step, mut args: Args<'_>) -> Option<Step>
    ensures { result ≡ alone step args.entry }
{
    match args.next() {
        None => Some(step),
        Some(_) => None,
    }
}

/// The number that stands alone behind a step's name.
fn only_number(mut args: Args<'_>) -> Option<u64>
    ensures { result ≡ only_number args.entry }
{
    let arg = args.next()?;
    match args.next() {
        None => number_in(arg),
        Some(_) => None,
    }
}

/// The words that the parts are; `AllocError` where there is no memory for them.
fn words_in(alloc: Global, mut args: Args<'_>) -> Result<Option<Vec<Vec<u8>>>, AllocError>
    ensures { IfOk result (λ r. option_map (λ ws. texts_of ws.items) r ≡ all_in word_in args.entry) }
{
    let mut words = Vec::new(alloc);
    while let Some(arg) = args.next() {
        match word_in(alloc, arg)? {
            Some(word) => words.push(word)?,
            None => return Ok(None),
        }
    }
    Ok(Some(words))
}

/// The names that the parts are in a text of this version; `AllocError` where there is no memory for them.
fn skips_in(
    alloc: Global,
    version: u64,
    mut args: Args<'_>,
) -> Result<Option<Vec<SkipId>>, AllocError>
    ensures names { IfOk result (λ r. option_map (λ names. names.items) r ≡ all_in (skip_in version) args.entry) }
    ensures numbered { IfOk result (λ r. IfSome r (λ names. AreNumbered names.items)) }
{
    let mut names = Vec::new(alloc);
    while let Some(arg) = args.next() {
        match skip_in(version, arg) {
            Some(name) => names.push(name)?,
            None => return Ok(None),
        }
    }
    Ok(Some(names))
}

/// The words of a request, as these are read in a text of this version: before version 3 a request of one of the three
/// names of a list is one of an empty word.
fn words_of(alloc: Global, version: u64, words: Vec<Vec<u8>>) -> Result<Vec<Vec<u8>>, AllocError>
    requires { 0 < length words.items }
    ensures { IfOk result (λ r. texts_of r.items ≡ words_of version (texts_of words.items)) }
{
    if version >= 3 || !is_control(words[0].as_slice()) {
        return Ok(words);
    }
    let mut unnamed = Vec::with_capacity(alloc, 1)?;
    unnamed.push(Vec::new(alloc))?;
    Ok(unnamed)
}

/// The submit of a connection's number and words, of which there is at least one, in a text of this version.
fn submit_in(alloc: Global, version: u64, mut args: Args<'_>) -> Result<Option<Step>, AllocError>
    ensures { IfOk result (λ r. r ≡ submit_in version args.entry) }
{
    let Some(conn) = args.next() else {
        return Ok(None);
    };
    let Some(words) = words_in(alloc, args)? else {
        return Ok(None);
    };
    if words.is_empty() {
        return Ok(None);
    }
    let Some(conn) = number_in(conn) else {
        return Ok(None);
    };
    let words = Request::from_words(words_of(alloc, version, words)?);
    Ok(Some(Step::Submit {
        conn: ConnId(conn),
        words,
    }))
}

/// The run of these names in a text of this version.
fn run_in(alloc: Global, version: u64, args: Args<'_>) -> Result<Option<Step>, AllocError>
    ensures { IfOk result (λ r. r ≡ run_in version args.entry) }
{
    let Some(names) = skips_in(alloc, version, args)? else {
        return Ok(None);
    };
    let starved = SkipIds::new(names);
    Ok(Some(Step::Run { starved }))
}

/// The step that a line says in a text of this version; `AllocError` where there is no memory for it.
#[tactic(auto, unfolding(crate::specs::TraceText::step_in))]
pub fn step_in(alloc: Global, version: u64, line: &[u8]) -> Result<Option<Step>, AllocError>
    ensures { IfOk result (λ r. r ≡ step_in version line.now) }
{
    let (name, args) = parts_in(line);
    if name == b"open".as_slice() {
        return Ok(alone(Step::Open, args));
    }
    if name == b"submit".as_slice() {
        return submit_in(alloc, version, args);
    }
    if name == b"deliver".as_slice() {
        return Ok(only_number(args).map(|place| Step::Deliver { place }));
    }
    if name == b"take".as_slice() {
        return Ok(alone(Step::Take, args));
    }
    if name == b"run".as_slice() {
        return run_in(alloc, version, args);
    }
    if name == b"settle".as_slice() {
        return Ok(alone(Step::Settle, args));
    }
    if name == b"collect".as_slice() {
        return Ok(only_number(args).map(|conn| Step::Collect { conn: ConnId(conn) }));
    }
    if name == b"close".as_slice() {
        return Ok(only_number(args).map(|conn| Step::Close { conn: ConnId(conn) }));
    }
    if name == b"repeat".as_slice() && version >= 2 {
        return Ok(only_number(args).map(|place| Step::Repeat { place }));
    }
    Ok(None)
}
