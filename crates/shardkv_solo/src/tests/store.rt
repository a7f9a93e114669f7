//! The store that the tests serve, what it answers, and how serving it ends.

use resp_decoder::Fault;
use serving::{ServeFault, Served};
use solo::{ConnectionFault, Solo};
use std::alloc::Global;
use std::hash::{BuildHasherDefault, FoldHasher};
use std::test::Fail;
use test_support::{bytes_of, requests_of, same, same_bytes};

pub(crate) type Store = Solo<BuildHasherDefault<FoldHasher>>;

pub(crate) type Ending = Result<Served, ServeFault<ConnectionFault>>;

pub(crate) const END: Ending = Ok(Served::End);

pub(crate) const INSIDE: Ending = Ok(Served::Inside);

pub(crate) const BAD_LENGTH: Ending = Ok(Served::Protocol(Fault::BadLength));

/// Requests, and their replies.
pub(crate) type Row = (&'static str, &'static str);

pub(crate) fn empty_store(alloc: Global) -> Store {
    Solo::new(alloc, BuildHasherDefault::<FoldHasher>::new())
}

/// Serving ended so, with these replies written.
pub(crate) fn came(
    line: &str,
    (ended, replies): (&Ending, &[u8]),
    (ending, wanted): (&Ending, &[u8]),
) -> Result<(), Fail> {
    same(line, ended, ending)?;
    same_bytes(line, replies, wanted)
}

/// Has the store answer all of this input, and looks at its replies.
pub(crate) fn answers(
    store: &mut Store,
    alloc: Global,
    line: &str,
    input: &[u8],
    replies: &[u8],
) -> Result<(), Fail> {
    let mut rest = input;
    let mut output = Vec::new(alloc);
    let ended = store.serve(&mut rest, &mut output);
    came(line, (&ended, &output), (&END, replies))
}

/// Has the store answer these requests, and looks at its replies.
pub(crate) fn answers_text(
    store: &mut Store,
    alloc: Global,
    line: &str,
    requests: &str,
    replies: &str,
) -> Result<(), Fail> {
    let input = requests_of(alloc, requests)?;
    let wanted = bytes_of(alloc, replies)?;
    answers(store, alloc, line, &input, &wanted)
}

/// Has the store answer the requests of a row, and looks at its replies.
pub(crate) fn answers_row(
    store: &mut Store,
    alloc: Global,
    requests: &str,
    replies: &str,
) -> Result<(), Fail> {
    answers_text(store, alloc, requests, requests, replies)
}

/// Has an empty store answer each row, and looks at its replies.
pub(crate) fn each_answers(alloc: Global, rows: &[Row]) -> Result<(), Fail> {
    for row in rows {
        let (requests, replies) = *row;
        answers_row(&mut empty_store(alloc), alloc, requests, replies)?;
    }
    Ok(())
}
