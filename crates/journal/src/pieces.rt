//! A trace's text in pieces, while its steps are made. The only error is want of memory, with which `out` is as it was.

ghost use Rattle.std.specs.Prelude.{◌≡◌, ℕ, ◌++◌, List, OnOk, OnErr};
ghost use Rattle.journal.specs.TraceText.{head_text, lines_text, ended, end_line};

use super::trace::Steps;
use super::version::WRITTEN_VERSION;
use super::writer::put_numbered;
use std::alloc::AllocError;

/// Appends what stands before the steps of a trace: the version of its text, and at most how many steps may be made.
pub fn write_head(max: u64, out: &mut Vec<u8>) -> Result<(), AllocError>
    ensures ok { OnOk result (out.new.items ≡ out.old.items ++ head_text max) }
    ensures err { OnErr result (out.new.items ≡ out.old.items) }
{
    let start = out.len();
    let written = put_head(max, out);
    if written.is_err() {
        out.truncate(start);
    }
    written
}

/// Appends a line for each of these steps.
pub fn write_lines(steps: Steps<'_>, out: &mut Vec<u8>) -> Result<(), AllocError>
    ensures ok { OnOk result (out.new.items ≡ out.old.items ++ lines_text steps.entry) }
    ensures err { OnErr result (out.new.items ≡ out.old.items) }
{
    let start = out.len();
    let written = steps.put_lines(out);
    if written.is_err() {
        out.truncate(start);
    }
    written
}

/// Appends the last line of a trace of so many steps.
pub fn write_end(count: u64, out: &mut Vec<u8>) -> Result<(), AllocError>
    ensures ok { OnOk result (out.new.items ≡ out.old.items ++ ended (end_line count)) }
    ensures err { OnErr result (out.new.items ≡ out.old.items) }
{
    let start = out.len();
    let written = put_numbered(b"end ", count, out);
    if written.is_err() {
        out.truncate(start);
    }
    written
}

/// Appends the first two lines, or a part of them where there is no memory for both.
fn put_head(max: u64, out: &mut Vec<u8>) -> Result<(), AllocError>
    ensures ok { OnOk result (out.new.items ≡ out.old.items ++ head_text max) }
    ensures err { OnErr result ((more : List ℕ) × (out.new.items ≡ out.old.items ++ more)) }
{
    put_numbered(b"shardkv-trace ", WRITTEN_VERSION, out)?;
    put_numbered(b"max ", max, out)
}
