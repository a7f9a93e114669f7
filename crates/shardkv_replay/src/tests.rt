//! The replayer as whoever has a trace meets it: a table's text and a trace's text go in, and a report and a status
//! come out.
//!
//! The traces and what they have to come to follow from the rules of stamps, layers and commands; none was taken from a
//! run.

mod beginnings;
mod comparing;
mod memory;
mod refusals;
mod reports;
mod showing;
mod steps_told;
mod traces;
mod watching;
mod words;
mod writes;
