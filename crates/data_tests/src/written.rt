//! Replies of every kind as they are written, and the words of a request.

use resp::{BulkTexts, ErrorText, Reply, Request, write_reply};
use std::alloc::{AllocError, Global};
use std::test::Fail;
use test_support::{same_bytes, same_count};

fn every_kind(alloc: Global) -> Result<Reply, AllocError> {
    let bytes = Vec::from_slice(alloc, b"a\r\nb")?;
    let inner = vec![in alloc; Reply::Int(-10), Reply::Null]?;
    let error = Reply::Error(ErrorText::Arity("get"));
    let texts = BulkTexts::copy_of(alloc, &[Some(b"c".as_slice()), None, Some(b"".as_slice())])?;
    let kinds = [
        Reply::Simple("OK"),
        error,
        Reply::Array(inner),
        Reply::Bulk(bytes),
        Reply::Bulks(texts),
    ];
    Ok(Reply::Array(Vec::from_array(alloc, kinds)?))
}

#[test]
fn writes_every_kind_behind_what_is_there(rt: HostRuntime) -> Result<(), Fail> {
    let mut out = Vec::from_slice(rt.alloc(), b"+PONG\r\n")?;
    write_reply(&every_kind(rt.alloc())?, &mut out)?;
    write_reply(&Reply::out_of_memory(), &mut out)?;
    let want = "+PONG\r\n*5\r\n+OK\r\n-ERR wrong number of arguments for 'get' command\r\n\
        *2\r\n:-10\r\n$-1\r\n$4\r\na\r\nb\r\n*3\r\n$1\r\nc\r\n$-1\r\n$0\r\n\r\n\
        -ERR out of memory\r\n";
    same_bytes("every kind", &out, want.as_bytes())
}

/// The request has four words, of which this is the last.
fn has_words(request: &Request, large: &[u8]) -> Result<(), Fail> {
    same_count("words", request.len(), 4)?;
    same_bytes("the second word", request.word(1), b"a")?;
    same_bytes("the last word", request.word(3), large)
}

#[test]
fn keeps_the_words_of_a_request(rt: HostRuntime) -> Result<(), Fail> {
    let large = Vec::from_elem(rt.alloc(), b'x', 2_000_000)?;
    let words: &[&[u8]] = &[b"SET", b"a", b"", &large];
    let request = Request::copy_of(rt.alloc(), words)?;
    has_words(&request, &large)?;
    let copy = request.try_clone(rt.alloc())?;
    has_words(&copy, &large)?;
    let (name, behind) = copy.into_parts();
    let again = Request::new(name, behind);
    same_bytes("the first word again", again.word(0), b"SET")
}
