//! Command lines, each made of a table of options and read by `clap`; and the options that several programs have.

ghost use Rattle.std.specs.Prelude.{◌≡◌, [], true, IfOk, IfErr, OnOk, map};
ghost use Rattle.clap.specs.Words.{app_of, fault_of, found_of, is_simple_and_free, matches_of, rows_of};
ghost use Rattle.options.specs.OptionRows.{line_of};
ghost use Rattle.options.specs.Refusals.{IsRefusalOf};

use crate::VERSION;
use crate::fault::OptionsFault;
use crate::option_row::{Kind, OptionRow};
use clap::{ArgMatches, Command};
use std::alloc::{AllocError, Global};
use std::convert::AsStr;

/// The table's file.
pub(crate) const TABLE: OptionRow = OptionRow {
    name: "table",
    kind: Kind::Needed("FILE"),
    help: "The placement table",
};

/// The file of the trace that is read.
pub(crate) const TRACE: OptionRow = OptionRow {
    name: "trace",
    kind: Kind::Needed("FILE"),
    help: "The trace",
};

/// How many workers run a layer.
pub(crate) const WORKERS: OptionRow = OptionRow {
    name: "workers",
    kind: Kind::Number("N", (1, 64), 1),
    help: "How many workers, 1 to 64 [default: 1]",
};

/// What `clap` finds in the words, of which the first is the program's name, by its table of options.
pub(crate) fn found_in<'a, S: AsStr>(
    alloc: Global,
    program: &'static str,
    rows: &[OptionRow],
    words: &'a [S],
) -> Result<ArgMatches<'a>, OptionsFault>
    requires { is_simple_and_free (line_of program.now rows.now) ≡ true }
    ensures found { IfOk result (λ found. rows_of (found_of found)
        ≡ matches_of (line_of program.now rows.now) (map S.text words.now)) }
    ensures taken { OnOk result
        (fault_of (line_of program.now rows.now) (map S.text words.now) ≡ []) }
    ensures refused { IfErr result
        (IsRefusalOf (line_of program.now rows.now) (map S.text words.now)) }
{
    let line = line(alloc, program, rows)?;
    match line.try_get_matches_from(words) {
        Ok(found) => Ok(found),
        Err(error) => Err(OptionsFault::from(error)),
    }
}

/// The command line of the program of this name, with these options. It tells the project's version.
fn line<'a>(
    alloc: Global,
    program: &'static str,
    rows: &[OptionRow],
) -> Result<Command<'a>, AllocError>
    ensures { IfOk result (λ line. app_of line ≡ line_of program.now rows.now) }
{
    let mut line = Command::new(alloc, program).version(VERSION);
    for row in rows {
        line = line.arg(row.arg(alloc))?;
    }
    Ok(line)
}
