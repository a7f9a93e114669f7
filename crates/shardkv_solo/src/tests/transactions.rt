//! MULTI, EXEC and DISCARD, as a client of a store meets them.
//!
//! The expected replies are Redis's, but for a member that finds no memory, which Redis doesn't know.

use crate::tests::store::{END, Ending, Row, Store, answers_row, each_answers, empty_store};
use resp::{Reply, Request, write_reply};
use serving::ServeFault;
use sessions::{Ask, Batch, Session};
use solo::ConnectionFault;
use std::alloc::{AllocError, Global};
use std::test::Fail;
use test_support::{bytes_of, holds, requests_of, same, same_bytes, same_count, same_text};

#[rattlefmt::skip]
const LISTS: [Row; 7] = [
    (
        "MULTI; SET a 1; LPUSH a x; INCR c; EXEC; GET c",
        "+OK|+QUEUED|+QUEUED|+QUEUED|*3|+OK|-WRONGTYPE Operation against a key holding the wrong kind of value|:1|$1|1|",
    ),
    ("MULTI; SET b 1 EX 10; EXEC", "+OK|+QUEUED|*1|-ERR syntax error|"),
    ("MULTI; INCRBY a x; INCR a; EXEC", "+OK|+QUEUED|+QUEUED|*2|-ERR value is not an integer or out of range|:1|"),
    (
        "MULTI; MULTI; DISCARD; DISCARD; MULTI; EXEC",
        "+OK|-ERR MULTI calls can not be nested|+OK|-ERR DISCARD without MULTI|+OK|*0|",
    ),
    (
        "MULTI; SET a 1; MULTI; INCR a; EXEC; GET a",
        "+OK|+QUEUED|-ERR MULTI calls can not be nested|+QUEUED|*2|+OK|:2|$1|2|",
    ),
    ("mULTi; get a; eXec; Multi; get a; dISCARD; exec", "+OK|+QUEUED|*1|$-1|+OK|+QUEUED|+OK|-ERR EXEC without MULTI|"),
    (
        "MULTI; SET a 1; MGET a b; DBSIZE; FLUSHALL; DBSIZE; PING; EXEC",
        "+OK|+QUEUED|+QUEUED|+QUEUED|+QUEUED|+QUEUED|+QUEUED|*6|+OK|*2|$1|1|$-1|:1|+OK|:0|+PONG|",
    ),
];

#[test]
fn a_list_is_run(rt: HostRuntime) -> Result<(), Fail> {
    each_answers(rt.alloc(), &LISTS)
}

#[rattlefmt::skip]
const SPOILT: [Row; 4] = [
    ("MULTI; FOO; EXEC", "+OK|-ERR unknown command|-EXECABORT Transaction discarded because of previous errors.|"),
    (
        "MULTI; SET a 1; MSET a 1 b; GET a; FOO; EXEC; EXISTS a",
        "+OK|+QUEUED|-ERR wrong number of arguments for 'mset' command|+QUEUED|-ERR unknown command|\
        -EXECABORT Transaction discarded because of previous errors.|:0|",
    ),
    (
        "MULTI; SET a 1; Exec now; GET a; EXEC; GET a; MULTI x; DISCARD x y",
        "+OK|+QUEUED|-ERR wrong number of arguments for 'exec' command|+QUEUED|\
        -EXECABORT Transaction discarded because of previous errors.|$-1|\
        -ERR wrong number of arguments for 'multi' command|-ERR wrong number of arguments for 'discard' command|",
    ),
    ("MULTI; FOO; MULTI; DISCARD; EXEC", "+OK|-ERR unknown command|-ERR MULTI calls can not be nested|+OK|-ERR EXEC without MULTI|"),
];

#[test]
fn a_spoilt_list_is_not_run(rt: HostRuntime) -> Result<(), Fail> {
    each_answers(rt.alloc(), &SPOILT)
}

#[test]
fn a_list_ends_with_its_connection(rt: HostRuntime) -> Result<(), Fail> {
    let mut store = empty_store(rt.alloc());
    answers_row(&mut store, rt.alloc(), "MULTI; SET a 1", "+OK|+QUEUED|")?;
    answers_row(
        &mut store,
        rt.alloc(),
        "GET a; EXEC",
        "$-1|-ERR EXEC without MULTI|",
    )
}

/// The request of these words, which stand one space apart.
fn request_of(alloc: Global, line: &str) -> Result<Request, AllocError> {
    let mut words = Vec::new(alloc);
    for word in line.split(' ') {
        words.push(Vec::from_slice(alloc, word.as_bytes())?)?;
    }
    if words.is_empty() {
        words.push(Vec::new(alloc))?;
    }
    Ok(Request::from_words(words))
}

/// What an EXEC of these requests gives to be run.
fn listed(alloc: Global, session: &mut Session, lines: &[&str]) -> Result<Batch, Fail> {
    for line in lines {
        session.take(alloc, request_of(alloc, line)?)?;
    }
    match session.take(alloc, request_of(alloc, "EXEC")?)? {
        Ask::Go(batch) => Ok(batch),
        Ask::Now(_) => Err("EXEC gives nothing to be run".into()),
    }
}

/// The store runs a batch but for these members, and answers so.
fn runs(
    alloc: Global,
    store: &mut Store,
    batch: Batch,
    skip: &[usize],
    row: &str,
) -> Result<(), Fail> {
    let reply = store.run_batch(batch, skip);
    let mut output = Vec::new(alloc);
    write_reply(&reply, &mut output)?;
    same_bytes(row, &output, &bytes_of(alloc, row)?)
}

/// A list of three members.
const LIST: [&str; 4] = ["MULTI", "SET a 1", "LPUSH a x", "INCR c"];

const WITHOUT_THIRD: &str =
    "*3|+OK|-WRONGTYPE Operation against a key holding the wrong kind of value|-ERR out of memory|";

#[test]
fn a_member_is_skipped(rt: HostRuntime) -> Result<(), Fail> {
    let mut store = empty_store(rt.alloc());
    let batch = listed(rt.alloc(), &mut Session::new(), &LIST)?;
    runs(rt.alloc(), &mut store, batch, &[3, 9], WITHOUT_THIRD)?;
    answers_row(&mut store, rt.alloc(), "EXISTS a; EXISTS c", ":1|:0|")
}

/// What comes of a request outside a list is run, whatever is to be skipped.
fn runs_plain(
    alloc: Global,
    store: &mut Store,
    line: &str,
    skip: &[usize],
    row: &str,
) -> Result<(), Fail> {
    match Session::new().take(alloc, request_of(alloc, line)?)? {
        Ask::Go(batch) => runs(alloc, store, batch, skip, row),
        Ask::Now(_) => Err("nothing is to be run".into()),
    }
}

#[test]
fn a_command_outside_a_list_has_no_members(rt: HostRuntime) -> Result<(), Fail> {
    let mut store = empty_store(rt.alloc());
    runs_plain(rt.alloc(), &mut store, "INCR c", &[0, 1], ":1|")
}

#[test]
fn a_batch_is_put_back(rt: HostRuntime) -> Result<(), Fail> {
    let mut session = Session::new();
    let batch = listed(rt.alloc(), &mut session, &["MULTI", "INCR a"])?;
    if let Batch::Exec(members) = batch {
        session = Session::new();
        session.back(Batch::Exec(members));
    }
    let again = listed(rt.alloc(), &mut session, &["INCR a"])?;
    let mut store = empty_store(rt.alloc());
    runs(rt.alloc(), &mut store, again, &[], "*2|:1|:2|")
}

/// A connection's session, and its store.
#[derive(Drop)]
struct Client {
    store: Store,
    session: Session,
}

impl Client {
    /// The reply to a request; none where there was no memory for it.
    fn ask(&mut self, alloc: Global, request: Request) -> Option<Reply> {
        match self.session.take(alloc, request) {
            Err(_) => None,
            Ok(Ask::Now(reply)) => Some(reply),
            Ok(Ask::Go(batch)) => Some(self.store.run_batch(batch, &[])),
        }
    }

    /// How many members the list has more for this request: one, or none where there was no memory for it.
    fn queue(&mut self, alloc: Global, request: Request) -> Result<usize, Fail> {
        match self.ask(alloc, request) {
            None => Ok(0),
            Some(Reply::Simple("QUEUED")) => Ok(1),
            Some(_) => Err("no member, and no want of memory".into()),
        }
    }

    /// How many of the list's members were run: none where there was no memory for their replies.
    fn exec(&mut self, alloc: Global, request: Request, members: usize) -> Result<usize, Fail> {
        match self.ask(alloc, request) {
            Some(Reply::Array(replies)) => {
                same_count("members", replies.len(), members)?;
                Ok(replies.iter().filter(|reply| is_ok(reply)).count())
            }
            Some(Reply::Error(_)) => Ok(0),
            _ => Err("EXEC is answered by no array".into()),
        }
    }

    /// So many of these keys are there.
    fn has(&mut self, alloc: Global, request: Request, keys: usize) -> Result<(), Fail> {
        match self.ask(alloc, request) {
            Some(Reply::Int(count)) => same_count(
                "keys",
                usize::try_from(count).unwrap_or(usize::MAX),
                keys,
            ),
            _ => Err("EXISTS is answered by no number".into()),
        }
    }
}

fn is_ok(reply: &Reply) -> bool {
    matches!(reply, Reply::Simple("OK"))
}

/// MULTI, two members, EXEC, and a look at what they leave.
type Five = (Request, Request, Request, Request, Request);

fn five_requests(alloc: Global) -> Result<Five, AllocError> {
    Ok((
        request_of(alloc, "MULTI")?,
        request_of(alloc, "SET a 1")?,
        request_of(alloc, "SET b 2")?,
        request_of(alloc, "EXEC")?,
        request_of(alloc, "EXISTS a b")?,
    ))
}

/// With ample memory both members are run. Run with the Nth allocation failing, for each N, it says what is left to
/// promise: a member for which there is no memory isn't one, and what is run is what its place says.
#[test]
fn transactions_where_memory_fails(rt: HostRuntime) -> Result<(), Fail> {
    let alloc = rt.alloc();
    let Ok((multi, first, second, exec, look)) = five_requests(alloc) else {
        return Ok(());
    };
    let mut client = Client {
        store: empty_store(alloc),
        session: Session::new(),
    };
    client.ask(alloc, multi);
    let one = client.queue(alloc, first)?;
    let other = client.queue(alloc, second)?;
    let run = client.exec(alloc, exec, one.saturating_add(other))?;
    client.has(alloc, look, run)
}

/// What is written before the first member of a list, and before the second.
const NO_MEMBER: &[u8] = b"+OK\r\n";

const ONE_MEMBER: &[u8] = b"+OK\r\n+QUEUED\r\n";

/// A connection that ended so wrote these replies. With ample memory its list of two members was run; where there was no memory
/// for one of them nothing was, and the replies to those before it stand.
fn stands(alloc: Global, store: &mut Store, ended: &Ending, replies: &[u8]) -> Result<(), Fail> {
    match ended {
        Err(ServeFault::Door(ConnectionFault::NoMemory)) => {
            let before = replies == NO_MEMBER || replies == ONE_MEMBER;
            holds("the replies before the member", before)?;
            answers_row(store, alloc, "EXISTS a b", ":0|")
        }
        Err(fault) => same("no memory", fault, &ServeFault::Memory),
        Ok(_) => {
            same("the end", ended, &END)?;
            let listed = replies.starts_with(b"+OK\r\n+QUEUED\r\n+QUEUED\r\n");
            holds("two members", listed)
        }
    }
}

/// With ample memory a list is run that a connection sends. Run with the Nth allocation failing, for each N, it says what is
/// left to promise: where a member isn't queued the connection ends, and the list isn't run.
#[test]
fn a_connection_ends_where_memory_fails(rt: HostRuntime) -> Result<(), Fail> {
    let alloc = rt.alloc();
    let Ok(input) = requests_of(alloc, "MULTI; SET a 1; SET b 2; EXEC") else {
        return Ok(());
    };
    let Ok(mut output) = Vec::with_capacity(alloc, 100) else {
        return Ok(());
    };
    let mut store = empty_store(alloc);
    let mut rest = input.as_slice();
    let ended = store.serve(&mut rest, &mut output);
    stands(alloc, &mut store, &ended, &output)
}

#[test]
fn the_end_of_a_connection_says_why(rt: HostRuntime) -> Result<(), Fail> {
    let fault = ServeFault::Door(ConnectionFault::NoMemory);
    let text = format!(in rt.alloc(); "{fault}")?;
    same_text(
        "ConnectionFault",
        text.as_str(),
        "no memory for this connection",
    )
}
