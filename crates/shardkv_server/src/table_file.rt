//! The placement table in its file.

use crate::{MEMORY, PROGRAM};
use options::status_of;
use placement::{Table, TableFault};
use std::alloc::Global;
use std::fs;
use std::fs::Files;

/// The table of the file of this path. Else what went wrong is told, and its status given: 3, or 7 where memory was wanting.
pub(crate) fn read_table<R: Files + AllocGlobal + Eprint>(rt: &R, path: &str) -> Result<Table, u8> {
    let text = match fs::read_to_string(rt, path) {
        Ok(text) => text,
        Err(fault) => {
            let _ = eprintln!(rt; "{PROGRAM}: the table {path} can't be read: {fault}");
            return Err(status_of(&fault, 3, MEMORY));
        }
    };
    match Table::from_toml(rt.alloc(), text.as_str()) {
        Ok(table) => Ok(table),
        Err(TableFault::Memory) => {
            let _ = eprintln!(rt; "{PROGRAM}: out of memory");
            Err(MEMORY)
        }
        Err(fault) => {
            let _ = match faulty_line(rt.alloc(), text.as_str()) {
                Some(line) => eprintln!(rt; "{PROGRAM}: the table {path}, line {line}: {fault}"),
                None => eprintln!(rt; "{PROGRAM}: the table {path}: {fault}"),
            };
            Err(3)
        }
    }
}

/// The line, counted from 1, by which a text is no TOML, if it is none.
fn faulty_line(alloc: Global, text: &str) -> Option<usize> {
    let Err(fault) = toml::table_from_str(alloc, text) else {
        return None;
    };
    let span = fault.span()?;
    let mut line = 1usize;
    for byte in text.as_bytes().iter().take(span.start) {
        if *byte == b'\n' {
            line = line.saturating_add(1);
        }
    }
    Some(line)
}
