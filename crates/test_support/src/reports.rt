//! The report of a trace, beside what it is to say.

use crate::checks::{holds, same_count, same_text};
use std::test::Fail;

/// A report agrees, has so many rows, and ends so.
pub fn same_report(report: &[u8], rows: usize, ending: &[u8]) -> Result<(), Fail> {
    same_text("the last line of the report", last_line(report), "agree")?;
    same_count("rows", lines_with(report, "row "), rows)?;
    let ends = report.ends_with(ending);
    holds("the report ends with the contents", ends)
}

/// How many lines of a text begin so.
fn lines_with(text: &[u8], beginning: &str) -> usize {
    match str::from_utf8(text) {
        Ok(text) => count_lines(text, beginning),
        Err(_) => 0,
    }
}

/// How many lines of a text begin so.
fn count_lines(text: &str, beginning: &str) -> usize {
    let mut count = 0usize;
    for line in text.lines() {
        if line.starts_with(beginning) {
            count = count.saturating_add(1);
        }
    }
    count
}

/// The last line of a text.
pub fn last_line(text: &[u8]) -> &str {
    match str::from_utf8(text) {
        Ok(text) => text.lines().last().unwrap_or(""),
        Err(_) => "",
    }
}
