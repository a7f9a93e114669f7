//! The lines of a report.

ghost use Rattle.std.specs.Prelude.{◌≡◌, ◌++◌, OnOk};
ghost use Rattle.std.specs.List.{flat_map};
ghost use Rattle.journal.specs.TraceText.{id_text, skip_text};
ghost use Rattle.tasks.specs.Tasks.{task_name};
ghost use Rattle.replay.specs.Report.{line_of, starved_line, stamp_text};

use command_table::name;
use groups::{RequestId, SkipId, Stamp};
use itoa::Buffer;
use journal::Row;
use sessions::Batch;
use std::alloc::{AllocError, Global};

/// Appends the line of an executed request, which is this batch.
pub(super) fn put_row_line(
    alloc: Global,
    row: &Row<'_>,
    batch: &Batch,
    out: &mut Vec<u8>,
) -> Result<(), AllocError>
    ensures { OnOk result (out.new.items ≡ out.old.items ++ line_of row.now.stamp row.now.id batch.now row.now.reply) }
{
    out.extend_from_slice(b"row ")?;
    put_stamp(row.stamp(), out)?;
    out.extend_from_slice(b" ")?;
    put_id(row.id(), out)?;
    out.extend_from_slice(b" ")?;
    out.extend_from_slice(name_of(batch))?;
    out.extend_from_slice(b" ")?;
    out.extend_from_slice(hex::encode(alloc, row.reply())?.as_bytes())?;
    out.extend_from_slice(b"\n")
}

/// The name of a batch: a command's, or that of what runs a list.
fn name_of(batch: &Batch) -> &'static [u8]
    ensures { result.now ≡ task_name batch.now }
{
    match batch {
        Batch::Plain(command) => name(command).as_bytes(),
        Batch::Exec(_) => b"exec",
    }
}

/// Appends a line for each request, and each member of one, that starved.
pub(super) fn put_starved(starved: &[SkipId], out: &mut Vec<u8>) -> Result<(), AllocError>
    ensures { OnOk result (out.new.items ≡ out.old.items ++ flat_map starved_line starved.now) }
{
    for name in starved {
        out.extend_from_slice(b"starved ")?;
        put_name(name, out)?;
        out.extend_from_slice(b"\n")?;
    }
    Ok(())
}

/// Appends a stamp.
fn put_stamp(stamp: &Stamp, out: &mut Vec<u8>) -> Result<(), AllocError>
    ensures { OnOk result (out.new.items ≡ out.old.items ++ stamp_text stamp.now) }
{
    out.extend_from_slice(Buffer::new().format(stamp.clock).as_bytes())?;
    out.extend_from_slice(b".")?;
    out.extend_from_slice(Buffer::new().format(stamp.group.number()).as_bytes())
}

/// Appends the name of a request, or of a member of one.
fn put_name(name: &SkipId, out: &mut Vec<u8>) -> Result<(), AllocError>
    ensures { OnOk result (out.new.items ≡ out.old.items ++ skip_text name.now) }
{
    match name {
        SkipId::Whole(id) => put_id(*id, out),
        SkipId::Part(id, number) => {
            put_id(*id, out)?;
            out.extend_from_slice(b".")?;
            out.extend_from_slice(Buffer::new().format(*number).as_bytes())
        }
    }
}

/// Appends a request's id.
fn put_id(id: RequestId, out: &mut Vec<u8>) -> Result<(), AllocError>
    ensures { OnOk result (out.new.items ≡ out.old.items ++ id_text id) }
{
    out.extend_from_slice(Buffer::new().format(id.conn.0).as_bytes())?;
    out.extend_from_slice(b".")?;
    out.extend_from_slice(Buffer::new().format(id.seq).as_bytes())
}
