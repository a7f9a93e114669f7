//! The words of the command line of `shardkv-picture`.

ghost use Rattle.std.specs.Prelude.{◌≡◌, [], IfOk, IfErr, OnOk, map};
ghost use Rattle.clap.specs.Words.{fault_of, found_of, rows_of};
ghost use Rattle.options.specs.Picture.{AreSaid, AreSaidBy, IsRefusal, Lacks, line};

use crate::command_line::{TABLE, TRACE, found_in};
use crate::fault::OptionsFault;
use crate::option_row::{Kind, OptionRow};
use clap::ArgMatches;
use std::alloc::Global;
use std::convert::AsStr;

/// The options.
#[rattlefmt::skip]
const ROWS: [OptionRow; 4] = [
    TABLE,
    TRACE,
    OptionRow { name: "from", kind: Kind::Number("STEP", ALL, 0),
        help: "The first step that is drawn [default: 0]" },
    OptionRow { name: "to", kind: Kind::Number("STEP", ALL, u64::MAX),
        help: "The first step that isn't drawn [default: none]" },
];

/// The least and the greatest number of a step.
const ALL: (u64, u64) = (0, u64::MAX);

/// What the words ask for.
#[derive(Clone, Copy, Debug, Drop)]
pub struct Asked<'a> {
    /// The path of the table's file.
    pub table: &'a str,

    /// The path of the trace's file.
    pub trace: &'a str,

    /// The first step that is drawn, counted from 0; 0 where the words say nothing.
    pub from: u64,

    /// The first step behind those that are drawn; the greatest number where the words say nothing.
    pub to: u64,
}

/// Reads the words, of which the first is the program's name: `--table FILE --trace FILE`, `--from STEP`, and `--to STEP`,
/// which is the first step that isn't drawn.
///
/// What they say is what `clap` finds in them by the command line's options, each of which takes a value; where they
/// name no step all are drawn.
pub fn read_options<'a, S: AsStr>(alloc: Global, words: &'a [S]) -> Result<Asked<'a>, OptionsFault>
    ensures said { IfOk result (AreSaid (map S.text words.now)) }
    ensures taken { OnOk result (fault_of line (map S.text words.now) ≡ []) }
    ensures refused { IfErr result (IsRefusal (map S.text words.now)) }
{
    match found_in(alloc, "shardkv-picture", &ROWS, words) {
        Ok(found) => asked_in(&found),
        Err(fault) => Err(fault),
    }
}

/// What the options that were given ask for.
fn asked_in<'a>(found: &ArgMatches<'a>) -> Result<Asked<'a>, OptionsFault>
    ensures said { IfOk result (AreSaidBy (rows_of (found_of found.now))) }
    ensures refused { IfErr result (Lacks (rows_of (found_of found.now))) }
{
    let [table, trace, from, to] = &ROWS;
    Ok(Asked {
        table: table.needed(found)?,
        trace: trace.needed(found)?,
        from: from.number(found)?,
        to: to.number(found)?,
    })
}
