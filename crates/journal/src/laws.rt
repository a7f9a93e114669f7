//! What the trace's text promises beside its calls: it is read in one way, what was written is read back, and pieces are a whole.

ghost use Rattle.std.specs.Prelude.{◌≡◌, IfOk};
ghost use Rattle.journal.specs.Laws.{SpellsOne, OneVersion, OneFault, NoFaultOfTrace, PiecesSpell};

use super::fault::TraceFault;
use super::reader::read_trace;
use super::trace::Trace;
use super::writer::write_trace;
use std::alloc::{AllocError, Global};

/// Any text spells one trace at most, in one version at most, and is at fault at one line at most; none that spells a
/// trace is at fault.
pub fn one_reading()
    ensures one_trace { SpellsOne }
    ensures one_version { OneVersion }
    ensures one_fault { OneFault }
    ensures not_both { NoFaultOfTrace }
{}

/// What stands before the steps of a trace, a line for each of them, and the last line are a text that spells it.
pub fn pieces_spell()
    ensures { PiecesSpell }
{}

/// Writes the trace's text and reads it. What is read is the trace: the only error is want of memory.
pub fn read_back(alloc: Global, trace: &Trace) -> Result<Trace, AllocError>
    ensures max { IfOk result (λ again. again.max ≡ trace.now.max) }
    ensures steps { IfOk result (λ again. again.steps ≡ trace.now.steps) }
{
    let mut text = Vec::new(alloc);
    write_trace(trace, &mut text)?;
    match read_trace(alloc, text.as_slice()) {
        Ok(again) => Ok(again),
        Err(TraceFault::Memory) => Err(AllocError),
        Err(TraceFault::Bad { line: _ }) => unreachable!(),
    }
}
