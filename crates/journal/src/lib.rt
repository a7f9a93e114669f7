//! What happens in the system, as data: the steps that are made, and what each executed request came to.
//!
//! A run of the system is a list of steps. Whoever has the list can run it again, and gets the same replies and
//! contents. Both the list of steps and the rows of what was executed grow with each request, so they lie in few
//! bytes.
#![tactic(auto)]

mod codes;
mod fault;
mod laws;
mod lines;
mod long_rows;
mod packed_rows;
mod parts;
mod pieces;
mod reader;
mod row;
mod rows;
mod skip_ids;
mod step;
mod trace;
mod version;
mod writer;

pub use fault::TraceFault;
pub use laws::{one_reading, pieces_spell, read_back};
pub use pieces::{write_end, write_head, write_lines};
pub use reader::read_trace;
pub use row::Row;
pub use rows::Rows;
pub use skip_ids::SkipIds;
pub use step::Step;
pub use trace::{GREATEST_STEPS, Steps, Trace};
pub use writer::write_trace;
