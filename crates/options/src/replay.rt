//! The words of the command line of `shardkv-replay`.

ghost use Rattle.std.specs.Prelude.{◌≡◌, ◌≤◌, [], IfOk, IfErr, OnOk, map};
ghost use Rattle.clap.specs.Words.{fault_of, found_of, rows_of};
ghost use Rattle.options.specs.Replay.{AreSaid, AreSaidBy, IsRefusal, Lacks, line};

use crate::command_line::{TABLE, TRACE, WORKERS, found_in};
use crate::fault::OptionsFault;
use crate::option_row::{Kind, OptionRow};
use clap::ArgMatches;
use std::alloc::Global;
use std::convert::AsStr;

/// The options.
#[rattlefmt::skip]
const ROWS: [OptionRow; 4] = [
    TABLE,
    TRACE,
    WORKERS,
    OptionRow { name: "part", kind: Kind::Flag,
        help: "The trace may be cut, as a killed server leaves it in FILE.part" },
];

/// What the words ask for.
#[derive(Clone, Copy, Debug, Drop)]
pub struct Asked<'a> {
    /// The path of the table's file.
    pub table: &'a str,

    /// The path of the trace's file.
    pub trace: &'a str,

    /// How many workers: 1 to 64, and 1 where the words say nothing.
    pub workers: u8,

    /// Whether the trace may be cut, as a killed server leaves it.
    pub part: bool,
}

/// Reads the words, of which the first is the program's name: `--table FILE --trace FILE`, `--workers N` from 1 to 64, and
/// `--part`.
///
/// What they say is what `clap` finds in them by the command line's options, each of which but `--part` takes a value; where
/// they name no workers there is one.
pub fn read_options<'a, S: AsStr>(alloc: Global, words: &'a [S]) -> Result<Asked<'a>, OptionsFault>
    ensures least { IfOk result (λ options. 1 ≤ options.workers) }
    ensures most { IfOk result (λ options. options.workers ≤ 64) }
    ensures said { IfOk result (AreSaid (map S.text words.now)) }
    ensures taken { OnOk result (fault_of line (map S.text words.now) ≡ []) }
    ensures refused { IfErr result (IsRefusal (map S.text words.now)) }
{
    match found_in(alloc, "shardkv-replay", &ROWS, words) {
        Ok(found) => asked_in(&found),
        Err(fault) => Err(fault),
    }
}

/// What the options that were given ask for.
fn asked_in<'a>(found: &ArgMatches<'a>) -> Result<Asked<'a>, OptionsFault>
    ensures least { IfOk result (λ options. 1 ≤ options.workers) }
    ensures most { IfOk result (λ options. options.workers ≤ 64) }
    ensures said { IfOk result (AreSaidBy (rows_of (found_of found.now))) }
    ensures refused { IfErr result (Lacks (rows_of (found_of found.now))) }
{
    let [table, trace, workers, part] = &ROWS;
    Ok(Asked {
        table: table.needed(found)?,
        trace: trace.needed(found)?,
        workers: workers.number(found)? as u8,
        part: part.is_given(found),
    })
}
