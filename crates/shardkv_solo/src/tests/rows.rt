//! What the store answers, row by row.

use crate::tests::store::{BAD_LENGTH, END, Ending, INSIDE, Row, came, each_answers, empty_store};
use crate::tests::table::read_line;
use command_table::Command;
use resp::{Reply, write_reply};
use resp_decoder::Fault;
use serving::Served;
use std::alloc::Global;
use std::io::Read;
use std::test::Fail;
use test_support::{bytes_of, same_bytes};

/// Requests on an empty store, and their replies.
#[rattlefmt::skip]
const COMMANDS: [Row; 11] = [
    ("SET a 1; GET a; DEL a a; GET a", "+OK|$1|1|:1|$-1|"),
    ("PING hi; PING x y", "$2|hi|-ERR wrong number of arguments for 'ping' command|"),
    ("ECHO ''; FOO", "$0||-ERR unknown command|"),
    ("SET a 1 XX; SET a 1 nx NX; SET a 2 NX; GET a", "$-1|+OK|$-1|$1|1|"),
    ("SET b 1 NX XX; SET b 1 EX 10; GET b", "-ERR syntax error|-ERR syntax error|$-1|"),
    (
        "GET; DEL; SET a",
        "-ERR wrong number of arguments for 'get' command|-ERR wrong number of arguments for 'del' command|\
        -ERR wrong number of arguments for 'set' command|",
    ),
    ("SET a 1; SET b 2; DEL a c b a; del b", "+OK|+OK|:2|:0|"),
    ("SET a 9223372036854775807; INCR a; GET a", "+OK|-ERR increment or decrement would overflow|$19|9223372036854775807|"),
    ("DECRBY a -9223372036854775808; INCR b", "-ERR increment or decrement would overflow|:1|"),
    ("INCR b; INCRBY b +1; SETRANGE b -1 x", ":1|-ERR value is not an integer or out of range|-ERR offset is out of range|"),
    ("MSET a 1 c 2 a 3; GET a; APPEND a 0; HINCRBY h f 2", "+OK|$1|3|:2|:2|"),
];

#[test]
fn commands_answer(rt: HostRuntime) -> Result<(), Fail> {
    each_answers(rt.alloc(), &COMMANDS)
}

const STAR: Ending = Ok(Served::Protocol(Fault::ExpectedStar));

const DOLLAR: Ending = Ok(Served::Protocol(Fault::ExpectedDollar));

const LINE_END: Ending = Ok(Served::Protocol(Fault::ExpectedCrlf));

/// The bytes that are read, the replies, and how serving ends.
type Stream = (&'static str, &'static str, Ending);

#[rattlefmt::skip]
const STREAMS: [Stream; 12] = [
    ("*1|$4|PiNG|", "+PONG|", END),
    ("*3|$3|SET|$0||$0||*2|$3|GET|$0||*2|$3|GET|$1|a|", "+OK|$0||$-1|", END),
    ("*0|*-1|*1|$4|PING|", "+PONG|", END),
    ("", "", END),
    ("*1|$4|PI", "", INSIDE),
    ("*1|$4|PING|*", "+PONG|", INSIDE),
    ("*1|$03|GET|", "-ERR Protocol error: invalid length|", BAD_LENGTH),
    ("*1|$536870913", "-ERR Protocol error: invalid length|", BAD_LENGTH),
    ("PING|", "-ERR Protocol error: expected '*'|", STAR),
    ("*1|$4|PING|PING|*1|$4|PING|", "+PONG|-ERR Protocol error: expected '*'|", STAR),
    ("*1|+PING|", "-ERR Protocol error: expected '$'|", DOLLAR),
    ("*1|$4|PINGxx", "-ERR Protocol error: expected CRLF|", LINE_END),
];

fn is_served(alloc: Global, stream: &Stream) -> Result<(), Fail> {
    let (input, replies, ending) = stream;
    let bytes = bytes_of(alloc, input)?;
    let wanted = bytes_of(alloc, replies)?;
    let mut output = Vec::new(alloc);
    let ended = empty_store(alloc).serve(&mut bytes.as_slice(), &mut output);
    came(input, (&ended, &output), (ending, &wanted))
}

fn each_is_served(alloc: Global, streams: &[Stream]) -> Result<(), Fail> {
    for stream in streams {
        is_served(alloc, stream)?;
    }
    Ok(())
}

#[test]
fn bytes_are_read_as_requests(rt: HostRuntime) -> Result<(), Fail> {
    each_is_served(rt.alloc(), &STREAMS)
}

/// SET is answered where the input is cut so.
fn answers_cut(alloc: Global, first: &[u8], second: &[u8]) -> Result<(), Fail> {
    let line = format!(in alloc; "cut after {}", first.len())?;
    let mut output = Vec::new(alloc);
    let ended = empty_store(alloc).serve(&mut first.chain(second), &mut output);
    came(line.as_str(), (&ended, &output), (&END, b"+OK\r\n"))
}

/// SET a 1.
const SET: &[u8] = b"*3\r\n$3\r\nSET\r\n$1\r\na\r\n$1\r\n1\r\n";

#[test]
fn a_request_may_be_cut_anywhere(rt: HostRuntime) -> Result<(), Fail> {
    for cut in 0..=SET.len() {
        let (first, second) = SET.split_at(cut);
        answers_cut(rt.alloc(), first, second)?;
    }
    Ok(())
}

/// The command that the line says.
pub(crate) fn command(alloc: Global, line: &str) -> Result<Command, Fail> {
    Ok(read_line(alloc, line)??)
}

fn commands(alloc: Global, lines: &[&str]) -> Result<Vec<Command>, Fail> {
    let mut commands = Vec::new(alloc);
    for line in lines {
        commands.push(command(alloc, line)?)?;
    }
    Ok(commands)
}

/// The replies are these.
fn are(alloc: Global, replies: &[Reply], row: &str) -> Result<(), Fail> {
    let mut output = Vec::new(alloc);
    for reply in replies {
        write_reply(reply, &mut output)?;
    }
    same_bytes("the replies", &output, &bytes_of(alloc, row)?)
}

const RUN: [&str; 5] = ["SET a 1", "GET a", "DEL a a", "GET a", "PING"];

#[test]
fn a_run_gives_a_reply_for_each_command(rt: HostRuntime) -> Result<(), Fail> {
    let commands = commands(rt.alloc(), &RUN)?;
    let replies = empty_store(rt.alloc()).run_all(commands)?;
    are(rt.alloc(), &replies, "+OK|$1|1|:1|$-1|+PONG|")
}

#[test]
fn a_command_gives_its_reply(rt: HostRuntime) -> Result<(), Fail> {
    let command = command(rt.alloc(), "ECHO hi")?;
    let reply = empty_store(rt.alloc()).run(command);
    are(rt.alloc(), &[reply], "$2|hi|")
}
