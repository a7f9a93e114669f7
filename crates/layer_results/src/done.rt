//! What comes of a layer.

ghost use Rattle.std.specs.Prelude.{◌≡◌, ◌+◌, ◌≤◌, ◌^◌, ◌++◌, [], length, IfOk, MatchOption, vec_len, vec_capacity};
ghost use Rattle.layer_results.specs.Results.{names_of};

use crate::starving::{push_row_names, row_count};
use groups::{RequestId, SkipId, Stamp};
use journal::SkipIds;
use packing::PackedRequest;
use resp::Reply;
use std::alloc::{AllocError, Global};
use std::marker::Model;

/// A request of a layer that was run: its id, its final stamp, its words and its reply; none where it starved as a whole. The
/// reply to an EXEC tells which of its members starved.
#[derive(Drop)]
pub struct DoneRow {
    pub id: RequestId,
    pub stamp: Stamp,
    pub words: PackedRequest,
    pub reply: Option<Reply>,
}

/// What came of a layer that was run: a row for each of its requests, in its order. Contracts see the list.
#[derive(Drop)]
pub struct Done {
    rows: Vec<DoneRow>,
}

impl Model for Done {
    ghost use Rattle.std.specs.Coded.{codes};
    ghost use Rattle.std.specs.Prelude.{List};
    ghost use Rattle.resp.specs.contracts.reply.Reply as reply;
    ghost use Rattle.layer_results.specs.declared.done.DoneRow.{DoneRow};

    ghost Value = { List DoneRow };

    ghost coded = { Prim.hlevel (codes, reply.the_row.coded) };

    ghost view = { λ d. d.rows.items };
}

impl Done {
    /// These rows. It takes no memory.
    pub fn new(rows: Vec<DoneRow>) -> Self
        ensures { result ≡ rows.items }
    {
        Done { rows }
    }

    /// What comes of no layer. It takes no memory.
    pub fn none(alloc: Global) -> Self
        ensures { result ≡ [] }
    {
        Done {
            rows: Vec::new(alloc),
        }
    }

    /// The requests, in the order of the layer.
    pub fn rows(&self) -> &[DoneRow]
        ensures { result.now ≡ self.now }
    {
        self.rows.as_slice()
    }

    /// The requests, given back with the memory that they lie in.
    pub fn into_rows(self) -> Vec<DoneRow>
        ensures { result.items ≡ self }
    {
        self.rows
    }

    /// How many requests, and members of those that were executed, starved; `None` where that is 2^64 or more.
    // Inlined, as `push_names`: most layers have one row.
    #[inline(always)]
    pub fn names_count(&self) -> Option<usize>
        ensures { MatchOption result (2 ^ 64 ≤ length (names_of self.now)) (λ count. count ≡ length (names_of self.now)) }
    {
        let mut count: usize = 0;
        for row in &self.rows {
            count = count.checked_add(row_count(row))?;
        }
        Some(count)
    }

    /// Appends the names of what starved, for which there is room.
    #[inline(always)]
    pub fn push_names(&self, names: &mut Vec<SkipId>)
        requires { vec_len names.old + length (names_of self.now) ≤ vec_capacity names.old }
        ensures items { names.new.items ≡ names.old.items ++ names_of self.now }
        ensures len { vec_len names.new ≡ vec_len names.old + length (names_of self.now) }
        ensures capacity { vec_capacity names.old ≤ vec_capacity names.new }
    {
        for row in &self.rows {
            push_row_names(row, names);
        }
    }

    /// The names of what starved. The only error is want of memory.
    pub fn names(&self, alloc: Global) -> Result<SkipIds, AllocError>
        ensures { IfOk result (λ names. names ≡ names_of self.now) }
    {
        let Some(count) = self.names_count() else {
            return Err(AllocError);
        };
        let mut names = Vec::with_capacity(alloc, count)?;
        self.push_names(&mut names);
        Ok(SkipIds::new(names))
    }
}
