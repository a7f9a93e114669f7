//! The heads of rows, and how a row is found by them.

ghost use Rattle.std.specs.Prelude.{◌≡◌};
ghost use Rattle.command_table.specs.RowHeads.{heads_held, place_from};

use crate::arity::Arity;
use crate::refusal::{CommandName, Refusal};

/// The head of a row: the command's name, in lower case, and how many words it takes.
#[derive(Clone, Copy)]
pub(crate) struct RowHead {
    pub(crate) name: &'static str,
    pub(crate) arity: Arity,
}

/// The place among rows with these heads of the one of this name, where it takes so many words.
// Inlined, since its callers' heads are constants.
#[inline(always)]
pub(crate) fn place_of(heads: &[RowHead], name: &[u8], words: usize) -> Result<usize, Refusal>
    ensures { result ≡ place_from 0 (heads_held heads.now) name.now words }
{
    for place in 0..heads.len() {
        let head = heads[place];
        if name == head.name.as_bytes() {
            if head.arity.admits(words) {
                return Ok(place);
            }
            return Err(Refusal::Arity(CommandName::of(head.name)));
        }
    }
    Err(Refusal::Unknown)
}
