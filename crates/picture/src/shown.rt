//! A table's text and a trace's text, to a picture that is written.

ghost use Rattle.std.specs.Prelude.{ℕ, false, IfOk, IfErr, OnOk, List, Option};
ghost use Rattle.std.specs.Io.KnownBytes.{Appends};
ghost use Rattle.picture.specs.Told.{IsTold};
ghost use Rattle.picture_shapes.specs.Svg.{svg_text};
ghost use Rattle.replay.specs.Show.{IsShowFault};

use crate::making::facts_of;
use journal::{TraceFault, read_trace};
use picture_shapes::{Picture, SvgFault, picture_of, write_svg};
use placement::{Table, TableFault};
use replay::{Progress, ReplayFault, ShowFault};
use std::alloc::Global;
use std::io::Write;

/// Writes the picture of the steps of a window, from the first to before the second of these, as far as the trace has
/// them. The table is read first. Nothing is written before the watcher knows that the picture is there.
///
/// What is written is the text of the picture of the trace's run. `ShowFault` says what is wrong with the texts, the
/// first fault of the table before one of the trace; `Memory` and `Write` say nothing of them.
pub fn told<P: Progress, O: Write>(
    alloc: Global,
    table: &[u8],
    trace: &[u8],
    window: (usize, usize),
    progress: &mut P,
    writer: &mut O,
) -> Result<(), ShowFault>
    ensures told { OnOk result (IsTold table.now trace.now window.0 window.1 (O.contents writer.old) (O.contents writer.new)) }
    ensures fault { IfErr result (IsShowFault false table.now trace.now) }
{
    let picture = match found(alloc, table, trace, window, progress) {
        Ok(picture) => picture,
        Err(fault) => {
            progress.ended();
            return Err(fault);
        }
    };
    progress.ended();
    match write_svg(alloc, &picture, writer) {
        Ok(()) => {}
        Err(SvgFault::Memory) => return Err(ShowFault::Memory),
        Err(SvgFault::Write) => return Err(ShowFault::Write),
    }
    let Ok(()) = writer.flush() else {
        return Err(ShowFault::Write);
    };
    Ok(())
}

/// The picture of these steps. The table is read first.
fn found<P: Progress>(
    alloc: Global,
    table: &[u8],
    trace: &[u8],
    window: (usize, usize),
    progress: &mut P,
) -> Result<Picture, ShowFault>
    ensures told { IfOk result (λ picture. (before after : Option (List ℕ)) → Appends before after (svg_text picture)
        → IsTold table.now trace.now window.0 window.1 before after) }
    ensures fault { IfErr result (IsShowFault false table.now trace.now) }
{
    let Ok(text) = str::from_utf8(table) else {
        return Err(ShowFault::Encoding);
    };
    let table = match Table::from_toml(alloc, text) {
        Ok(table) => table,
        Err(TableFault::Memory) => return Err(ShowFault::Memory),
        Err(fault) => return Err(ShowFault::Table(fault)),
    };
    let trace = match read_trace(alloc, trace) {
        Ok(trace) => trace,
        Err(TraceFault::Bad { line }) => return Err(ShowFault::Trace { line }),
        Err(TraceFault::Memory) => return Err(ShowFault::Memory),
    };
    let facts = match facts_of(alloc, table, &trace, progress) {
        Ok(facts) => facts,
        Err(ReplayFault::Step { index, fault }) => return Err(ShowFault::Step { index, fault }),
        Err(ReplayFault::Memory) => return Err(ShowFault::Memory),
    };
    match picture_of(alloc, &facts, window.0, window.1) {
        Ok(picture) => Ok(picture),
        Err(_) => Err(ShowFault::Memory),
    }
}
