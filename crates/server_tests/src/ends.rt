//! How a server ends, and what clients are told who meet its end or their own.

use crate::clients::Act;
use crate::clients::Does::{Asks, Gets, IsEnded, Sends};
use crate::hosting::{End, Hosting, MANY, options, replay_trace, serve_by};
use std::alloc::{AllocError, Global};
use std::net::{Net, TcpListener, TcpStream};
use std::rt::Files;
use std::test::Fail;
use std::{env, fs, process};
use test_support::same_bytes;

/// The path of a file of this name, which no other process writes.
pub(crate) fn path_of(rt: &HostRuntime, name: &str) -> Result<String, Fail> {
    let id = process::id(rt.process());
    Ok(format!(in rt.alloc(); "{}/shardkv-{name}-{id}", env::temp_dir(rt)?.display())?)
}

/// What three clients do where the steps run out that two requests take.
#[rattlefmt::skip]
const RUN_OUT: [Act<'static>; 9] = [
    (0, Asks("SET a 1")),
    (0, Gets("+OK|")),
    (1, Asks("SET c 2")),
    (1, Gets("+OK|")),
    (2, Asks("GET a")),
    (2, Gets("-ERR no more steps may be made|")),
    (2, IsEnded),
    (0, IsEnded),
    (1, IsEnded),
];

/// What is left then.
const LEFT: &[u8] = b"key 61 string 31\nkey 63 string 32\nagree\n";

/// So many steps run out for so many workers.
fn run_out<R>(rt: &R, path: &str, max_steps: u64, workers: usize) -> Result<(), Fail>
where
    R: Hosting + Net<Listener = TcpListener, Stream = TcpStream>,
{
    let options = options(workers, 1000, max_steps, Some(path))?;
    serve_by(rt, &options, 3, &RUN_OUT, End::By(5))?;
    replay_trace(rt, path, 2, LEFT)
}

/// Numbers of steps that run out, each for so many workers.
const STEPS: [(u64, usize); 5] = [(14, 1), (15, 1), (16, 1), (17, 1), (15, 2)];

/// Two requests take their steps; the third client is refused its seat, its submit or its first turn, the others are
/// ended. The status is 5, and the trace of what was done replays.
#[test]
fn steps_that_run_out(rt: HostRuntime) -> Result<(), Fail> {
    let path = path_of(&rt, "ended")?;
    for (max_steps, workers) in STEPS {
        run_out(&rt, path.as_str(), max_steps, workers)?;
    }
    Ok(())
}

/// 2,500 times two requests, and the replies to them. `|` stands for CR LF.
const TIMES: usize = 2500;

const REQUESTS: &str = "*3|$3|SET|$1|a|$1|b|*2|$3|GET|$1|a|";

const REPLIES: &str = "+OK|$1|b|";

/// A text so many times, and another one behind it.
fn often(alloc: Global, text: &str, last: &str) -> Result<String, AllocError> {
    let mut all = String::new(alloc);
    for _ in 0..TIMES {
        all.push_str(text)?;
    }
    all.push_str(last)?;
    Ok(all)
}

/// A client sends the first bytes and then the second ones, and gets these replies and its end.
fn is_ended_behind<'a, R>(
    rt: &R,
    first: &'a str,
    second: &'a str,
    replies: &'a str,
) -> Result<(), Fail>
where
    R: Hosting + Net<Listener = TcpListener, Stream = TcpStream>,
{
    let acts = [
        (0, Sends(first)),
        (0, Sends(second)),
        (0, Gets(replies)),
        (0, IsEnded),
    ];
    let options = options(1, 1, MANY, None)?;
    serve_by(rt, &options, 1, acts.as_slice(), End::By(0))
}

/// A fault stands between two times 5,000 requests: all replies to the first ones arrive, and its line.
#[test]
fn replies_before_a_fault_arrive(rt: HostRuntime) -> Result<(), Fail> {
    let first = often(rt.alloc(), REQUESTS, "*1|+PING|")?;
    let second = often(rt.alloc(), REQUESTS, "")?;
    let replies = often(rt.alloc(), REPLIES, "-ERR Protocol error: expected '$'|")?;
    is_ended_behind(&rt, first.as_str(), second.as_str(), replies.as_str())
}

/// A server whose trace would be in this file isn't able to write it, and serves no one.
fn writes_no_trace<R>(rt: &R, path: &str) -> Result<(), Fail>
where
    R: Hosting + Net<Listener = TcpListener, Stream = TcpStream>,
{
    let options = options(1, 1, MANY, Some(path))?;
    serve_by(rt, &options, 0, &[], End::By(6))
}

/// A file stands under this name, and a folder under the one that its trace would be written to first.
fn stand_before<R: Files>(rt: &R, path: &str, part: &str) -> Result<(), Fail> {
    fs::write(rt, path, "older")?;
    fs::create_dir(rt, part)?;
    Ok(())
}

/// The file that stood there stands there still. Both are removed.
fn stand_still<R: AllocGlobal + Files>(rt: &R, path: &str, part: &str) -> Result<(), Fail> {
    fs::remove_dir(rt, part)?;
    let left = fs::read(rt, path)?;
    fs::remove_file(rt, path)?;
    same_bytes("the older trace", left.as_slice(), b"older")
}

/// A trace that can't be written in this file leaves what stands there.
fn leaves<R>(rt: &R, path: &str) -> Result<(), Fail>
where
    R: Hosting + Net<Listener = TcpListener, Stream = TcpStream>,
{
    let part = format!(in rt.alloc(); "{path}.part")?;
    stand_before(rt, path, part.as_str())?;
    writes_no_trace(rt, path)?;
    stand_still(rt, path, part.as_str())
}

/// A trace that can't be written leaves what stands under its name.
#[test]
fn an_older_trace_stays(rt: HostRuntime) -> Result<(), Fail> {
    let path = path_of(&rt, "older")?;
    leaves(&rt, path.as_str())
}

const ASKS_ONCE: [Act<'static>; 2] = [(0, Asks("SET a 1")), (0, Gets("+OK|"))];

/// A folder has the name that the trace would get at its end. The client is answered, the end is told, and the status is 6; what was
/// written stays.
fn stays_unnamed<R>(rt: &R, path: &str) -> Result<(), Fail>
where
    R: Hosting + Net<Listener = TcpListener, Stream = TcpStream>,
{
    let part = format!(in rt.alloc(); "{path}.part")?;
    fs::create_dir(rt, path)?;
    let options = options(1, 1, MANY, Some(path))?;
    let closed = "closed requests=1 executed=1 starved=0";
    let served = serve_by(rt, &options, 1, &ASKS_ONCE, End::Lost(closed));
    let _ = fs::remove_dir(rt, path);
    served?;
    replay_trace(rt, part.as_str(), 1, b"key 61 string 31\nagree\n")
}

/// A trace that can't get its name stays where it was written.
#[test]
fn a_trace_without_its_name_stays(rt: HostRuntime) -> Result<(), Fail> {
    let path = path_of(&rt, "unnamed")?;
    stays_unnamed(&rt, path.as_str())
}
