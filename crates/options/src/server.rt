//! The words of the command line of `shardkv-server`.

ghost use Rattle.std.specs.Prelude.{◌≡◌, [], IfOk, IfErr, OnOk, map};
ghost use Rattle.clap.specs.Words.{fault_of, found_of, rows_of};
ghost use Rattle.options.specs.Server.{InRange, AreSaid, AreSaidBy, IsRefusal, Lacks, line};

use crate::command_line::{TABLE, WORKERS, found_in};
use crate::fault::OptionsFault;
use crate::option_row::Kind::{Flag, Number, ShortNumber, Valued};
use crate::option_row::OptionRow;
use clap::ArgMatches;
use journal::GREATEST_STEPS;
use std::alloc::Global;
use std::convert::AsStr;
use std::net::IpAddr;
use std::num::NonZeroUsize;

/// The options.
#[rattlefmt::skip]
const ROWS: [OptionRow; 9] = [
    TABLE,
    OptionRow { name: "port", kind: ShortNumber("N", (0, 65_535), 7379),
        help: "The port, 0 for any free one [default: 7379]" },
    OptionRow { name: "bind", kind: Valued("ADDRESS"),
        help: "The address that it listens at [default: 127.0.0.1]" },
    WORKERS,
    OptionRow { name: "connections", kind: Number("N", (1, u64::MAX), 64),
        help: "How many connections are served, at least 1 [default: 64]" },
    OptionRow { name: "max-steps", kind: Number("N", (1, GREATEST_STEPS), 1_000_000),
        help: "At most how many steps are made, 1 to 2^62 [default: 1000000]" },
    OptionRow { name: "trace", kind: Valued("FILE"),
        help: "The file that the trace is written to" },
    OptionRow { name: "report", kind: Number("SECONDS", (0, 86_400), 0),
        help: "Every how many seconds it tells how far it is, at most 86400, \
            0 for never [default: 0]" },
    OptionRow { name: "until-input-ends", kind: Flag, help: "End when standard input ends" },
];

/// What the server is to do.
#[derive(Clone, Copy, Debug)]
pub struct Options<'a> {
    /// The file with the placement table.
    pub table: &'a str,
    /// The port that it listens at; 0 for any free one.
    pub port: u16,
    /// The address that it listens at, if one is named.
    pub bind: Option<IpAddr>,
    /// How many workers run a layer, from 1 to 64.
    pub workers: NonZeroUsize,
    /// How many connections it serves, one or more.
    pub connections: u64,
    /// At most how many steps it makes, from 1 to [`GREATEST_STEPS`].
    pub max_steps: u64,
    /// The file that the trace is written to, if one is asked for.
    pub trace: Option<&'a str>,
    /// Every how many seconds it tells how far it is, at most a day; 0 for never.
    pub report: u64,
    /// Whether it ends when its standard input ends.
    pub until_input_ends: bool,
}

/// Reads the words that the server is started with; the first of them is its name.
///
/// What they say is what `clap` finds in them by the command line's options; one that they don't name has its default.
#[tactic(auto, using(crate::proofs::Refusals::lacking))]
pub fn read_options<'a, S: AsStr>(
    alloc: Global,
    words: &'a [S],
) -> Result<Options<'a>, OptionsFault>
    ensures range { IfOk result InRange }
    ensures said { IfOk result (AreSaid (map S.text words.now)) }
    ensures taken { OnOk result (fault_of line (map S.text words.now) ≡ []) }
    ensures refused { IfErr result (IsRefusal (map S.text words.now)) }
{
    match found_in(alloc, "shardkv-server", &ROWS, words) {
        Ok(found) => options_of(&found),
        Err(fault) => Err(fault),
    }
}

/// The options that were given, and the defaults of those that were not.
fn options_of<'a>(found: &ArgMatches<'a>) -> Result<Options<'a>, OptionsFault>
    ensures range { IfOk result InRange }
    ensures said { IfOk result (AreSaidBy (rows_of (found_of found.now))) }
    ensures refused { IfErr result (Lacks (rows_of (found_of found.now))) }
{
    let [
        table,
        port,
        bind,
        workers,
        connections,
        max_steps,
        trace,
        report,
        until_input_ends,
    ] = &ROWS;
    let table = table.needed(found)?;
    let port = port.number(found)? as u16;
    let bind = bind.address(found)?;
    let Some(workers) = NonZeroUsize::new(workers.number(found)? as usize) else {
        unreachable!()
    };
    Ok(Options {
        table,
        port,
        bind,
        workers,
        connections: connections.number(found)?,
        max_steps: max_steps.number(found)?,
        trace: trace.value(found),
        report: report.number(found)?,
        until_input_ends: until_input_ends.is_given(found),
    })
}
