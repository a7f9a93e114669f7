//! The value of a key that is a list.

ghost use Rattle.std.specs.Prelude.{◌≡◌, ◌+◌, ◌<◌, ◌≤◌, [], ◌∷◌, ◌++◌, length, insert, position, slice_get, slice_set, slice_range};
ghost use Rattle.std.specs.Prelude.{IsOk, OnOk, OnErr};
ghost use Rattle.std.specs.Option.{option_map};
ghost use Rattle.std.specs.Str.{bytes_eq};
ghost use Rattle.texts.specs.declared.text_list.End.TheVariants.{Head, Tail};
ghost use Rattle.texts.specs.Texts.{texts_of};
ghost use Rattle.values.specs.ListValue.{nonempty, pushed, end_item, popped, joined, without_equal};

use crate::items::{Items, Rest};
use std::alloc::{AllocError, Global};
use std::collections::VecDeque;
use std::marker::Model;
use texts::{End, Text, Texts};

/// A list of at least one byte string. Contracts see the list.
///
/// Each call takes time for the items that it adds, removes or looks at, at either end; `insert` and `remove_equal`
/// move others too. A call that can leave no item gives back what is left, if something is.
#[derive(Drop)]
pub struct ListValue {
    texts: VecDeque<Vec<u8>>,
}

impl Model for ListValue {
    ghost use Rattle.std.specs.Prelude.{List, ◌<◌, length};
    ghost use Rattle.texts.specs.Texts.{Bytes, texts_of};

    ghost Value = { List Bytes };

    ghost view = { λ l. texts_of l.texts.items };

    ghost invariant = { λ l. 0 < length l.texts.items };
}

impl ListValue {
    /// The list that pushing these items at this end makes of no list; `None` where there are none. It takes no memory.
    #[tactic(auto, using(crate::proofs::Mapped::mapped))]
    pub fn from_pushes(end: End, items: Texts) -> Option<Self>
        ensures { result ≡ nonempty (pushed end [] items) }
    {
        let mut texts = items.into_vec();
        match end {
            End::Head => {
                texts.reverse();
                at_least_one(VecDeque::from_vec(texts))
            }
            End::Tail => at_least_one(VecDeque::from_vec(texts)),
        }
    }

    /// The number of items.
    pub fn len(&self) -> usize
        ensures len { result ≡ length self.now }
        ensures some { 0 < result }
    {
        self.texts.len()
    }

    /// The item at a place, counted from 0 at the head. It takes constant time.
    pub fn item(&self, place: usize) -> Option<&[u8]>
        ensures { option_map (λ item. item.now) result ≡ slice_get self.now place }
    {
        match self.texts.get(place) {
            Some(text) => Some(text.as_slice()),
            None => None,
        }
    }

    /// The items from `start` to below `end`, to be read one after another. It takes time for these items alone.
    #[tactic(auto, using(crate::proofs::Mapped::mapped))]
    pub fn range(&self, start: usize, end: usize) -> Items<'_>
        requires ordered { start ≤ end }
        requires within { end ≤ length self.now }
        ensures { result ≡ slice_range self.now start end }
    {
        Items {
            value: None,
            rest: Rest::Texts(self.texts.range(start..end)),
        }
    }

    /// The items from `start` to below `end`, in two slices that follow each other. It takes constant time.
    #[tactic(auto, using(crate::proofs::Mapped::mapped))]
    pub fn slices(&self, start: usize, end: usize) -> (&[Vec<u8>], &[Vec<u8>])
        requires ordered { start ≤ end }
        requires within { end ≤ length self.now }
        ensures { texts_of (result.0.now ++ result.1.now) ≡ slice_range self.now start end }
    {
        let (head, tail) = self.texts.as_slices();
        let split = head.len();
        (
            &head[start.min(split)..end.min(split)],
            &tail[start.saturating_sub(split)..end.saturating_sub(split)],
        )
    }

    /// Puts an item in the place of the one that is there. It takes constant time and no memory.
    #[tactic(auto, using(crate::proofs::Mapped::mapped))]
    pub fn set_item(&mut self, place: usize, item: Text)
        requires { place < length self.old }
        ensures { self.new ≡ slice_set self.old place item }
    {
        self.texts[place] = item.into_vec();
    }

    /// Pushes the items at this end one after another: all of them, or none and `AllocError`.
    pub fn push_all(&mut self, end: End, items: Texts) -> Result<(), AllocError>
        ensures ok { OnOk result (self.new ≡ pushed end self.old items) }
        ensures some { 0 < length self.new }
        ensures err { OnErr result (self.new ≡ self.old) }
        ensures succeeds { items ≡ [] → IsOk result }
    {
        match end {
            End::Head => push_head(&mut self.texts, items.into_vec()),
            End::Tail => self.texts.append(&mut VecDeque::from_vec(items.into_vec())),
        }
    }

    /// Takes the item at this end, and gives it with what is left.
    pub fn pop(self, end: End) -> (Text, Option<Self>)
        ensures item { result.0 ∷ [] ≡ end_item end self }
        ensures rest { result.1 ≡ nonempty (popped end self) }
    {
        let ListValue { mut texts } = self;
        let item = match end {
            End::Head => texts.pop_front(),
            End::Tail => texts.pop_back(),
        };
        (Text::from(item.unwrap()), at_least_one(texts))
    }

    /// The place of the first item that is equal to this one.
    pub fn find(&self, item: &[u8]) -> Option<usize>
        ensures { result ≡ position (bytes_eq item.now) self.now }
    {
        for place in 0..self.texts.len() {
            if item == self.texts[place].as_slice() {
                return Some(place);
            }
        }
        None
    }

    /// Inserts an item before the one at a place, or behind the last; `AllocError`, and no change, where there is no
    /// memory. It moves the items between the place and the nearer end.
    #[tactic(auto, using(crate::proofs::Mapped::mapped))]
    pub fn insert(&mut self, place: usize, item: Text) -> Result<(), AllocError>
        requires { place ≤ length self.old }
        ensures ok { OnOk result (self.new ≡ insert self.old place item) }
        ensures err { OnErr result (self.new ≡ self.old) }
    {
        let Ok(()) = self.texts.insert(place, item.into_vec()) else {
            return Err(AllocError);
        };
        Ok(())
    }

    /// Keeps the items from `start` to below `end`; `None` where that is none of them. It takes no memory.
    #[tactic(auto, using(crate::proofs::Mapped::mapped, crate::proofs::Lists::lists))]
    pub fn keep(self, start: usize, end: usize) -> Option<Self>
        requires ordered { start ≤ end }
        requires within { end ≤ length self }
        ensures { result ≡ nonempty (slice_range self start end) }
    {
        let ListValue { mut texts } = self;
        texts.truncate(end);
        texts.rotate_left(start);
        texts.truncate(end - start);
        at_least_one(texts)
    }

    /// Takes out the items that are equal to this one: those nearest to this end, at most so many. It gives their
    /// number and what is left. It takes no memory, and time for the items that it passes until
    /// it has removed so many.
    pub fn remove_equal(self, end: End, item: &[u8], most: usize) -> (usize, Option<Self>)
        ensures left { result.1 ≡ nonempty (without_equal end item.now most self) }
        ensures removed { result.0 + length (without_equal end item.now most self) ≡ length self }
    {
        let ListValue { mut texts } = self;
        let before = texts.len();
        match end {
            End::Head => remove_from_head(&mut texts, item, most),
            End::Tail => remove_from_tail(&mut texts, item, most),
        }
        (before - texts.len(), at_least_one(texts))
    }

    /// Moves the item at one end of the list to an end of the same list. It takes no memory.
    #[tactic(auto, using(crate::proofs::Mapped::mapped))]
    pub fn turn(&mut self, from: End, to: End)
        ensures { self.new ≡ joined to (popped from self.old) (end_item from self.old) }
    {
        match (from, to) {
            (End::Head, End::Tail) => self.texts.rotate_left(1),
            (End::Tail, End::Head) => self.texts.rotate_right(1),
            (End::Head, End::Head) | (End::Tail, End::Tail) => {}
        }
    }
}

/// These texts as a list, if there are any.
fn at_least_one(texts: VecDeque<Vec<u8>>) -> Option<ListValue>
    ensures { result ≡ nonempty (texts_of texts.items) }
{
    if texts.is_empty() {
        None
    } else {
        Some(ListValue { texts })
    }
}

/// Pushes the items at the head one after another: all of them, or none.
fn push_head(texts: &mut VecDeque<Vec<u8>>, mut items: Vec<Vec<u8>>) -> Result<(), AllocError>
    ensures ok { OnOk result
        (texts_of texts.new.items ≡ pushed Head (texts_of texts.old.items) (texts_of items.items)) }
    ensures err { OnErr result (texts.new.items ≡ texts.old.items) }
    ensures succeeds { texts_of items.items ≡ [] → IsOk result }
{
    texts.reserve(items.len())?;
    items.reverse();
    while let Some(item) = items.pop() {
        texts.push_front_reserved(item);
    }
    Ok(())
}

/// Takes out the first items that are equal to this one, at most so many, by turning the list on as far as they lie, and
/// then the shorter way round.
fn remove_from_head(texts: &mut VecDeque<Vec<u8>>, item: &[u8], most: usize)
    ensures left { texts_of texts.new.items ≡ without_equal Head item.now most (texts_of texts.old.items) }
    ensures bound { length texts.new.items ≤ length texts.old.items }
{
    let count = texts.len();
    let mut left = most;
    for turn in 0..count {
        if left == 0 {
            texts.rotate_left(count - turn);
            return;
        }
        let Some(text) = texts.pop_front() else {
            return;
        };
        if item == text.as_slice() {
            left -= 1;
        } else {
            texts.push_back_reserved(text);
        }
    }
}

/// Takes out the last items that are equal to this one, at most so many, by turning the list back as far as they lie, and
/// then the shorter way round.
fn remove_from_tail(texts: &mut VecDeque<Vec<u8>>, item: &[u8], most: usize)
    ensures left { texts_of texts.new.items ≡ without_equal Tail item.now most (texts_of texts.old.items) }
    ensures bound { length texts.new.items ≤ length texts.old.items }
{
    let count = texts.len();
    let mut left = most;
    for turn in 0..count {
        if left == 0 {
            texts.rotate_right(count - turn);
            return;
        }
        let Some(text) = texts.pop_back() else {
            return;
        };
        if item == text.as_slice() {
            left -= 1;
        } else {
            texts.push_front_reserved(text);
        }
    }
}
