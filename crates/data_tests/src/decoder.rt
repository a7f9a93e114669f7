//! The rows of the decoder, and each of them cut anywhere.

use resp::Request;
use resp_decoder::{Decoded, Decoder, Fault, Limits, decode_all, fault_line};
use std::alloc::{AllocError, Global};
use std::test::Fail;
use test_support::{bytes_of, holds, same, same_bytes, same_count};

/// Adds the words of a request in brackets.
fn push_words(out: &mut Vec<u8>, request: &Request) -> Result<(), AllocError> {
    for place in 0..request.len() {
        out.push(b'[')?;
        out.extend_from_slice(request.word(place))?;
        out.push(b']')?;
    }
    out.push(b';')?;
    Ok(())
}

/// Adds the words of each request.
fn push_requests(out: &mut Vec<u8>, requests: &[Request]) -> Result<(), AllocError> {
    for request in requests {
        push_words(out, request)?;
    }
    Ok(())
}

/// The words of each request in brackets, and the fault behind the requests.
fn shown(alloc: Global, decoded: &Decoded) -> Result<Vec<u8>, AllocError> {
    let mut out = Vec::new(alloc);
    push_requests(&mut out, &decoded.requests)?;
    if let Some(fault) = decoded.fault {
        out.extend_from_slice(format!(in alloc; "{fault}")?.as_bytes())?;
    }
    Ok(out)
}

/// The bytes of a stream, and its requests and the fault behind them.
type Row = (&'static str, &'static str);

#[rattlefmt::skip]
const ROWS: [Row; 16] = [
    ("*1|$4|PiNG|", "[PiNG];"),
    ("*3|$3|SET|$0||$0||", "[SET][][];"),
    ("*0|*-1|*1|$4|PING|", "[PING];"),
    ("*3|$3|SET|$1|a|$1|1|", "[SET][a][1];"),
    ("*1|$4|PING|*1|$4|PI", "[PING];"),
    ("*1048576|$1|a|", ""),
    ("*1|$536870912|a", ""),
    ("*1|$03|GET|", "invalid length"),
    ("*1|$536870913", "invalid length"),
    ("*1048577", "invalid length"),
    ("*-2", "invalid length"),
    ("*01", "invalid length"),
    ("*+1", "invalid length"),
    ("PING|", "expected '*'"),
    ("*1|+PING|", "expected '$'"),
    ("*1|$4|PING|*1|$4|PINGxx", "[PING];expected CRLF"),
];

/// These pieces are decoded as this text shows.
fn decodes(alloc: Global, line: &str, pieces: &[&[u8]], want: &[u8]) -> Result<(), Fail> {
    let decoded = decode_all(alloc, Limits::DEFAULT, pieces)?;
    let got = shown(alloc, &decoded)?;
    same_bytes(line, &got, want)
}

/// The stream is decoded so where it is cut here.
fn decodes_cut_at(
    alloc: Global,
    row: &str,
    stream: &[u8],
    cut: usize,
    want: &str,
) -> Result<(), Fail> {
    let line = format!(in alloc; "{row} cut at {cut}")?;
    let (first, second) = stream.split_at(cut.min(stream.len()));
    decodes(alloc, line.as_str(), &[first, second], want.as_bytes())
}

/// The stream is decoded so wherever it is cut.
fn decodes_cut(alloc: Global, row: &str, want: &str) -> Result<(), Fail> {
    let stream = bytes_of(alloc, row)?;
    for cut in 0..stream.len() {
        decodes_cut_at(alloc, row, &stream, cut, want)?;
    }
    Ok(())
}

fn decodes_each(alloc: Global, rows: &[Row]) -> Result<(), Fail> {
    for row in rows {
        let (stream, want) = *row;
        decodes_cut(alloc, stream, want)?;
    }
    Ok(())
}

#[test]
fn reads_rows_wherever_they_are_cut(rt: HostRuntime) -> Result<(), Fail> {
    decodes_each(rt.alloc(), &ROWS)
}

#[test]
fn waits_until_the_last_byte(rt: HostRuntime) -> Result<(), Fail> {
    let stream = b"*3\r\n$3\r\nSET\r\n$1\r\na\r\n$1\r\n1\r\n";
    let mut decoder = Decoder::new(rt.alloc(), Limits::DEFAULT);
    for (place, byte) in stream.iter().enumerate() {
        takes_byte(&mut decoder, place, *byte)?;
    }
    holds("all is read", !decoder.pending())
}

/// The decoder is fed the byte of this place: it holds something from the first one on, and has a request with the last
/// one alone.
fn takes_byte(decoder: &mut Decoder, place: usize, byte: u8) -> Result<(), Fail> {
    holds("pending before", decoder.pending() == (place > 0))?;
    decoder.feed(&[byte])?;
    holds("pending behind", decoder.pending())?;
    let has_come = decoder.next()?.is_some();
    holds("a request at the last byte", has_come == (place == 26))
}

#[test]
fn appends_an_error_line(rt: HostRuntime) -> Result<(), Fail> {
    let mut out = bytes_of(rt.alloc(), "+OK|")?;
    fault_line(Fault::ExpectedStar, &mut out)?;
    let want = bytes_of(rt.alloc(), "+OK|-ERR Protocol error: expected '*'|")?;
    same_bytes("behind a reply", &out, &want)
}

/// What a decoder answers, asked once more where there was no memory.
fn retried(decoder: &mut Decoder) -> Result<Option<Request>, Fault> {
    match decoder.next() {
        Err(fault) => match fault {
            Fault::Memory => decoder.next(),
            _ => Err(fault),
        },
        answer => answer,
    }
}

/// The request is ECHO hi.
fn is_echo(request: &Request) -> Result<(), Fail> {
    same_count("words", request.len(), 2)?;
    same_bytes("the first word", request.word(0), b"ECHO")?;
    same_bytes("the second word", request.word(1), b"hi")
}

/// Feeds a decoder, once more where there was no memory. What it then answers.
fn answered(decoder: &mut Decoder, piece: &[u8]) -> Result<Option<Request>, Fail> {
    if decoder.feed(piece).is_err() {
        decoder.feed(piece)?;
    }
    Ok(retried(decoder)?)
}

/// A decoder that is fed this has no request yet.
fn waits(decoder: &mut Decoder, piece: &[u8]) -> Result<(), Fail> {
    match answered(decoder, piece)? {
        Some(_) => Err("a request came".into()),
        None => Ok(()),
    }
}

/// A decoder that is fed this has ECHO hi.
fn has_echo(decoder: &mut Decoder, piece: &[u8]) -> Result<(), Fail> {
    match answered(decoder, piece)? {
        Some(request) => is_echo(&request),
        None => Err("no request".into()),
    }
}

/// Behind it a decoder has PING, and nothing else.
fn has_ping(decoder: &mut Decoder) -> Result<(), Fail> {
    match retried(decoder)? {
        Some(request) => same_count("words of the last request", request.len(), 1)?,
        None => return Err("no last request".into()),
    }
    holds("all is read", !decoder.pending())
}

fn goes_on(decoder: &mut Decoder) -> Result<(), Fail> {
    waits(decoder, b"*0\r\n*2\r\n$4\r\nECHO\r\n$2\r\nh")?;
    has_echo(decoder, b"i\r\n*0\r\n*1\r\n$4\r\nPING\r\n")?;
    has_ping(decoder)
}

/// It passes as well where any one allocation fails: nothing that was held is lost.
#[test]
fn goes_on_where_memory_was_refused(rt: HostRuntime) -> Result<(), Fail> {
    goes_on(&mut Decoder::new(rt.alloc(), Limits::DEFAULT))
}

/// A request of one word of 2 MB.
fn large_request(alloc: Global) -> Result<Vec<u8>, AllocError> {
    let mut bytes = bytes_of(alloc, "*1|$2000000|")?;
    bytes.extend_from_slice(&Vec::from_elem(alloc, b'x', 2_000_000)?)?;
    bytes.extend_from_slice(b"\r\n")?;
    Ok(bytes)
}

/// Pieces of 1,000 bytes.
fn pieces_of(alloc: Global, bytes: &[u8]) -> Result<Vec<&[u8]>, AllocError> {
    let mut pieces = Vec::new(alloc);
    for piece in bytes.chunks(1000) {
        pieces.push(piece)?;
    }
    Ok(pieces)
}

#[test]
fn reads_two_thousand_pieces_and_large_words(rt: HostRuntime) -> Result<(), Fail> {
    let bytes = large_request(rt.alloc())?;
    let pieces = pieces_of(rt.alloc(), &bytes)?;
    let decoded = decode_all(rt.alloc(), Limits::DEFAULT, &pieces)?;
    // `[`, the word, `]` and `;`.
    same_count("bytes", shown(rt.alloc(), &decoded)?.len(), 2_000_003)
}

/// What is fed, and the second words that are seen ahead, each behind a space.
#[rattlefmt::skip]
const AHEAD: [Row; 7] = [
    ("*2|$3|GET|$1|a|*1|$4|PING|*3|$3|SET|$2|bc|$1|d|", " a  bc"),
    ("*0|*2|$3|GET|$1|a|", "  a"),
    ("*2|$3|GET|$1|a|*2|$3|GET|$1|b", " a"),
    ("*2|$3|GET|$1|a|*2|$3|GETX", " a"),
    ("*-1|*2|$3|GET|$1|a|", ""),
    ("*16|$1|a|$1|b|$0||$0||$0||$0||$0||$0||$0||$0||$0||$0||$0||$0||$0||$0||", " b"),
    ("*17|$1|a|$1|b|$0||$0||$0||$0||$0||$0||$0||$0||$0||$0||$0||$0||$0||$0||$0||", ""),
];

/// The second words that a decoder shows ahead, each behind a space.
fn seen_ahead(alloc: Global, decoder: &Decoder) -> Result<Vec<u8>, AllocError> {
    let mut ahead = decoder.ahead();
    let mut seen = Vec::new(alloc);
    for _ in 0..10u8 {
        let Some(word) = ahead.next() else {
            break;
        };
        seen.push(b' ')?;
        seen.extend_from_slice(word)?;
    }
    Ok(seen)
}

/// A decoder that is fed this too shows these words.
fn shows_behind(alloc: Global, decoder: &mut Decoder, fed: &str, words: &str) -> Result<(), Fail> {
    decoder.feed(&bytes_of(alloc, fed)?)?;
    let seen = seen_ahead(alloc, decoder)?;
    same_bytes(fed, &seen, words.as_bytes())
}

/// A decoder that is fed so shows these words.
fn shows_ahead(alloc: Global, fed: &str, words: &str) -> Result<(), Fail> {
    let mut decoder = Decoder::new(alloc, Limits::DEFAULT);
    shows_behind(alloc, &mut decoder, fed, words)
}

fn shows_each_ahead(alloc: Global, rows: &[Row]) -> Result<(), Fail> {
    for row in rows {
        let (fed, words) = *row;
        shows_ahead(alloc, fed, words)?;
    }
    Ok(())
}

#[test]
fn sees_the_second_words_ahead(rt: HostRuntime) -> Result<(), Fail> {
    shows_each_ahead(rt.alloc(), &AHEAD)
}

/// A decoder with an open request sees what comes behind it.
fn sees_behind(alloc: Global, decoder: &mut Decoder) -> Result<(), Fail> {
    waits(decoder, b"*3\r\n$3\r\nSET\r\n$1\r\na\r\n$2")?;
    let row = "|xy|*2|$3|GET|$1|b|*2|$3|GET|$1|c|";
    shows_behind(alloc, decoder, row, " b c")
}

#[test]
fn sees_behind_a_request_that_is_open(rt: HostRuntime) -> Result<(), Fail> {
    let mut decoder = Decoder::new(rt.alloc(), Limits::DEFAULT);
    sees_behind(rt.alloc(), &mut decoder)
}
