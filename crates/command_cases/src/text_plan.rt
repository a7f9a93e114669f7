//! When the memory for the text of a body's reply is taken.
//!
//! A request that finds no memory for its reply's text has to leave the keyspace as it was. A body that only reads may
//! run first. One that changes the keyspace, and may answer long, needs the memory before it runs: what it will answer
//! can be seen in the keyspace.

ghost use Rattle.std.specs.Prelude.{◌≡◌};
ghost use Rattle.command_cases.specs.Case.{Case};
ghost use Rattle.command_cases.specs.TextPlan.{IsPlanFor};
ghost use Rattle.keyspace.specs.Map.{Map};
ghost use Rattle.resp.specs.Content.{BulkText};

use resp::{SHORT_BULK, bulk_size};

/// When the memory for the text of a command's reply is taken.
#[derive(Clone, Copy)]
pub enum TextPlan {
    /// Never: the reply is short by its kind.
    Never,

    /// After the body, which leaves the keyspace as it was.
    After,

    /// Before the body, which changes the keyspace: the text has this number of bytes.
    Before(usize),
}

impl TextPlan {
    /// The plan of a body that changes the keyspace and answers these bytes.
    pub fn for_bulk(bytes: &[u8]) -> Self
        ensures { (case : Case) (m : Map) → (case m).1 ≡ BulkText bytes.now → IsPlanFor case m result }
    {
        if bytes.len() > SHORT_BULK {
            TextPlan::Before(bulk_size(bytes))
        } else {
            TextPlan::Never
        }
    }
}
