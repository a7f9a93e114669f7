//! The report of a run.

ghost use Rattle.std.specs.Prelude.{◌≡◌, ◌++◌, true, IfOk, List};
ghost use Rattle.std.specs.List.{AllZip, flat_map};
ghost use Rattle.execution_order.specs.Entries.{Row as Executed, rows_by_stamp};
ghost use Rattle.journal.specs.declared.step.Step.{Step};
ghost use Rattle.system.specs.Halves.{IsAt};
ghost use Rattle.front.specs.Layers.{IsRow};
ghost use Rattle.world.specs.World.{World};
ghost use Rattle.replay.specs.Report.{row_line, starved_line, agrees, last_line, report_text};

use crate::compare::put_rows;
use crate::lines::put_starved;
use groups::SkipId;
use journal::Rows;
use solo::Solo;
use std::alloc::{AllocError, Global};
use std::hash::{BuildHasherDefault, FoldHasher};
use system::System;

/// What a run came to, and whether one thread on one map came to the same.
#[derive(Drop)]
pub struct Report {
    /// A line for each executed request, by their stamps; one for each that starved, and for each member of one that did; the
    /// dump of the contents; and `agree` or `differ`.
    pub text: Vec<u8>,

    /// Whether the replies and the contents are those of one thread on one map.
    pub agree: bool,
}

/// The report of a system. The only error is want of memory.
pub(super) fn report_of(alloc: Global, system: System) -> Result<Report, AllocError>
    ensures { IfOk result (λ report. (h : List Step) (w : World) → IsAt system.halves h w →
        (report.text.items ≡ report_text w) × (report.agree ≡ true)) }
{
    let mut dump = Vec::new(alloc);
    system.dump(&mut dump)?;
    compared(alloc, system.rows(), system.starved(), dump.as_slice())
}

/// The report of these rows, these names of what starved and this dump, once one store on one map has run the rows' requests
/// in the order of their stamps, where the members starve that are named: it agrees where that store gives the replies of the
/// rows and leaves the dump. The only error is want of memory.
pub fn compared(
    alloc: Global,
    rows: &Rows,
    starved: &[SkipId],
    dump: &[u8],
) -> Result<Report, AllocError>
    ensures { IfOk result (λ report. (executed : List Executed) → AllZip IsRow executed rows.now.rows →
        (report.text.items ≡ flat_map row_line (rows_by_stamp executed) ++ flat_map starved_line starved.now ++ dump.now
        ++ last_line report.agree)
        × (report.agree ≡ agrees starved.now (rows_by_stamp executed) dump.now)) }
{
    let mut solo = Solo::new(alloc, BuildHasherDefault::<FoldHasher>::new());
    let mut text = Vec::new(alloc);
    let same_replies = put_rows(alloc, rows, starved, &mut solo, &mut text)?;
    put_starved(starved, &mut text)?;
    text.extend_from_slice(dump)?;
    let mut left = Vec::new(alloc);
    solo.dump(&mut left)?;
    let same_contents = left.as_slice() == dump;
    let agree = same_replies && same_contents;
    if agree {
        text.extend_from_slice(b"agree\n")?;
    } else {
        text.extend_from_slice(b"differ\n")?;
    }
    Ok(Report { text, agree })
}
