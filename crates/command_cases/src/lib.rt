//! What the families of commands share: what it means that a body does its command's case.
//!
//! A case says what a command does to a map and what it answers. A body is proved to do its case on all that its
//! keyspace holds; a case looks only at its command's keys, and from that alone it follows that commands with no key in
//! common can change places. The crates of the families and `command_bodies` cite these words.
#![tactic(auto)]

mod replies;
mod text_plan;

ghost use Rattle.command_cases.specs.Commute.{AnswersCommute, ContentsCommute};

pub use replies::{
    GREATEST_COUNT, count_reply, no_such_key_reply, ok_reply, truth_reply, would_overflow_reply,
    wrong_type_reply,
};
use std::alloc::AllocError;
pub use text_plan::TextPlan;

/// A body found no memory. The keyspace has the contents that it had before.
#[derive(Debug, Drop)]
pub struct Starved;

impl From<AllocError> for Starved {
    fn from(_: AllocError) -> Starved {
        Starved
    }
}

/// Runs a command of a family by the body that its row names, with the allocator, the keyspace and the command's
/// fields.
///
/// It is for `command_table::command_rows`: after the family it takes the type of the family's commands, the allocator,
/// the keyspace and the command.
#[macro_export]
macro_rules! body_rows {
    ([$family:ident, $alloc:expr, $keyspace:expr, $command:expr] $((
        $name:literal, $arity:ident($number:literal), $span:tt, $variant:ident { $($field:ident),* }, $read:ident, $body:ident
    ),)*) => {
        match $command {
            $($family::$variant { $($field),* } => $body($alloc, $keyspace, $($field),*),)*
        }
    };
}

/// That commands with no key in common can change places: each answers what it would have answered first, and both
/// leave the same map in either order.
///
/// It holds of any two cases, by what it means to take a case on its keys alone; nothing of a command is used.
pub fn apart_commute()
    ensures answers { AnswersCommute }
    ensures contents { ContentsCommute }
{}
