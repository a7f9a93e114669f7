//! The byte strings of a value, one after another.

ghost use Rattle.std.specs.Iterator.{YieldsFirstRef, item_count};

use crate::member_table::least_after;
use hashed_texts::HashedText;
use indexmap::{map, set};
use std::collections::vec_deque;
use std::marker::Model;
use std::vec;

/// Items of a list, fields or values of a hash, or members of a set, in order. Contracts see the list of those that are
/// left.
#[derive(Drop)]
pub struct Items<'a> {
    /// The value of a field that was given, where fields and values come by turns.
    pub(crate) value: Option<&'a [u8]>,
    pub(crate) rest: Rest<'a>,
}

/// What is left, by the type of value that it is of.
#[derive(Drop)]
pub(crate) enum Rest<'a> {
    Texts(vec_deque::Iter<'a, Vec<u8>>),
    Fields(map::Iter<'a, HashedText, Vec<u8>>),
    Values(map::Iter<'a, HashedText, Vec<u8>>),

    /// Fields and values by turns.
    Both(map::Iter<'a, HashedText, Vec<u8>>),
    Members(vec::IntoIter<&'a [u8]>),

    /// Members as they lie in their table.
    Keys(set::Iter<'a, HashedText>),

    /// Members in ascending order, with no list of them.
    Least(LeastMembers<'a>),
}

/// Members in ascending order, of which each is looked for among all keys of the table. That takes no memory, and for
/// all of them time for their square.
#[derive(Drop)]
pub(crate) struct LeastMembers<'a> {
    pub(crate) keys: &'a [HashedText],

    /// The member that was given last.
    pub(crate) after: Option<&'a [u8]>,
}

impl<'a> Model for Items<'a> {
    ghost use Rattle.std.specs.Prelude.{List, ◌++◌};
    ghost use Rattle.texts.specs.Texts.{Bytes};
    ghost use Rattle.values.specs.Items.{lent, left};

    ghost Value = { List Bytes };

    ghost view = { λ i. lent i.value ++ left i.rest };
}

impl<'a> Iterator for Items<'a> {
    type Item = &'a [u8];

    ghost next_gives = { YieldsFirstRef (λ s. s) };

    ghost remaining = { item_count (λ s. s) };

    fn next(&mut self) -> Option<&'a [u8]> {
        if let Some(value) = self.value.take() {
            return Some(value);
        }
        match &mut self.rest {
            Rest::Texts(texts) => {
                let text = texts.next()?;
                Some(text.as_slice())
            }
            Rest::Fields(pairs) => {
                let (field, _) = pairs.next()?;
                Some(field.as_slice())
            }
            Rest::Values(pairs) => {
                let (_, value) = pairs.next()?;
                Some(value.as_slice())
            }
            Rest::Both(pairs) => {
                let (field, value) = pairs.next()?;
                self.value = Some(value.as_slice());
                Some(field.as_slice())
            }
            Rest::Members(members) => members.next(),
            Rest::Keys(keys) => {
                let key = keys.next()?;
                Some(key.as_slice())
            }
            Rest::Least(least) => {
                let member = least_after(least.keys, least.after)?;
                least.after = Some(member);
                Some(member)
            }
        }
    }
}
