//! Intersection, union and difference of sets. The members of the result are lent by the sets; where they become a set
//! of their own, each is copied once.

ghost use Rattle.std.specs.Prelude.{◌≡◌, ◌-◌, ◌≤◌, [], ◌∷◌, ◌++◌, List, length, not, IfOk, OnOk};
ghost use Rattle.std.specs.List.{AllByRecursion, filter};
ghost use Rattle.std.specs.Option.{option_copied};
ghost use Rattle.set_commands.specs.Combination.{combined, difference, intersection, union};
ghost use Rattle.set_commands.specs.Combination.{found_members, found_sets, is_in_all, is_in_each, is_in_some};
ghost use Rattle.set_commands.specs.Lent.{lent_texts};
ghost use Rattle.texts.specs.Texts.{Bytes};
ghost use Rattle.values.specs.ListValue.{nonempty};
ghost use Rattle.values.specs.SetValue.{IsAscending, is_member, with_members};

use hashed_texts::TextHasher;
use std::alloc::{AllocError, Global};
use texts::{Text, Texts};
use values::SetValue;

/// How sets are combined.
#[derive(Clone, Copy)]
pub(crate) enum Combination {
    /// The members of the first that are in each of the others.
    Intersection,

    /// The members of all.
    Union,

    /// The members of the first that are in none of the others.
    Difference,
}

/// The members of the combination of these sets, lent by them, ascending; a set that is missing has none.
pub(crate) fn combine<'a>(
    alloc: Global,
    how: Combination,
    sets: &[Option<&'a SetValue>],
) -> Result<Vec<&'a [u8]>, AllocError>
    ensures { IfOk result (λ members. lent_texts members.items ≡ combined how (found_sets sets.now)) }
{
    in_order(gather(alloc, how, sets)?)
}

/// The combination of these sets as a set that hashes by `hasher`, if it has a member; a set that is missing has none.
pub(crate) fn combine_as_set(
    alloc: Global,
    hasher: TextHasher,
    how: Combination,
    sets: &[Option<&SetValue>],
) -> Result<Option<SetValue>, AllocError>
    ensures { IfOk result (λ set. set ≡ nonempty (combined how (found_sets sets.now))) }
{
    let members = gather(alloc, how, sets)?;
    SetValue::from_members(alloc, hasher, copies(alloc, members.as_slice())?)
}

/// These texts in ascending order, each once.
fn in_order(mut texts: Vec<&[u8]>) -> Result<Vec<&[u8]>, AllocError>
    ensures { IfOk result (λ ordered. lent_texts ordered.items ≡ with_members [] (lent_texts texts.entry.items)) }
{
    texts.sort()?;
    texts.dedup();
    Ok(texts)
}

/// Copies of these texts.
fn copies(alloc: Global, texts: &[&[u8]]) -> Result<Texts, AllocError>
    ensures { IfOk result (λ copies. copies ≡ lent_texts texts.now) }
{
    let mut copies = Vec::with_capacity(alloc, texts.len())?;
    for text in texts {
        let copy = Text::copy_of(alloc, *text)?;
        copies.push(copy.into_vec())?;
    }
    Ok(Texts::from(copies))
}

/// The members of the combination of these sets, lent by them, in any order; those of a union may come more than once.
fn gather<'a>(
    alloc: Global,
    how: Combination,
    sets: &[Option<&'a SetValue>],
) -> Result<Vec<&'a [u8]>, AllocError>
    ensures { IfOk result (λ members. with_members [] (lent_texts members.items) ≡ combined how (found_sets sets.now)) }
{
    match how {
        Combination::Intersection => intersection(alloc, sets),
        Combination::Union => union(alloc, sets),
        Combination::Difference => difference(alloc, sets),
    }
}

/// The members that are in each of these sets, in any order: those of the smallest, lent by it, that the others have.
fn intersection<'a>(
    alloc: Global,
    sets: &[Option<&'a SetValue>],
) -> Result<Vec<&'a [u8]>, AllocError>
    ensures { IfOk result (λ members. with_members [] (lent_texts members.items) ≡ intersection (found_sets sets.now)) }
{
    let (before, rest) = sets.split_at(smallest(sets));
    let Some((set, after)) = rest.split_first() else {
        return Ok(Vec::new(alloc));
    };
    let Some(set) = *set else {
        return Ok(Vec::new(alloc));
    };
    kept_in_each(alloc, set, before, after)
}

/// The place of the smallest of these sets; 0 where there is none.
pub(crate) fn smallest(sets: &[Option<&SetValue>]) -> usize
    ensures place { result ≤ length sets.now - 1 }
    ensures ascending { AllByRecursion IsAscending (found_sets sets.now) }
{
    let mut place = 0;
    let mut least = usize::MAX;
    for i in 0..sets.len() {
        let size = size(sets[i]);
        if size < least {
            place = i;
            least = size;
        }
    }
    place
}

/// The number of members; a set that is missing has none.
#[tactic(auto, using(crate::proofs::Kept::kept))]
fn size(set: Option<&SetValue>) -> usize
    ensures { IsAscending (found_members (option_copied set.entry)) }
{
    match set {
        None => 0,
        Some(set) => set.len(),
    }
}

/// The members of the set that are in each of the others, those before it and those after it, lent by it, in any order.
fn kept_in_each<'a>(
    alloc: Global,
    set: &'a SetValue,
    before: &[Option<&SetValue>],
    after: &[Option<&SetValue>],
) -> Result<Vec<&'a [u8]>, AllocError>
    ensures { IfOk result (λ kept. with_members [] (lent_texts kept.items)
        ≡ filter (is_in_all (found_sets before.now) (found_sets after.now)) set.now) }
{
    let mut kept = Vec::new(alloc);
    let mut members = set.in_any_order();
    while let Some(member) = members.next() {
        if is_in_each(before, member) && is_in_each(after, member) {
            kept.push(member)?;
        }
    }
    Ok(kept)
}

/// The members of all sets, lent by them, one set after another.
fn union<'a>(alloc: Global, sets: &[Option<&'a SetValue>]) -> Result<Vec<&'a [u8]>, AllocError>
    ensures { IfOk result (λ members. with_members [] (lent_texts members.items) ≡ union (found_sets sets.now)) }
{
    let mut all = Vec::new(alloc);
    for set in sets {
        push_members(&mut all, *set)?;
    }
    Ok(all)
}

/// Pushes the members of a set, lent by it, in any order; one that is missing has none.
fn push_members<'a>(all: &mut Vec<&'a [u8]>, set: Option<&'a SetValue>) -> Result<(), AllocError>
    ensures { OnOk result ((more : List Bytes) × (lent_texts all.new.items ≡ lent_texts all.old.items ++ more)
        × (with_members [] more ≡ found_members (option_copied set.entry))) }
{
    let Some(set) = set else {
        return Ok(());
    };
    let mut members = set.in_any_order();
    while let Some(member) = members.next() {
        all.push(member)?;
    }
    Ok(())
}

/// Whether it is a member of each of these sets.
fn is_in_each(sets: &[Option<&SetValue>], member: &[u8]) -> bool
    ensures { result ≡ is_in_each (found_sets sets.now) member.now }
{
    for set in sets {
        if !has(*set, member) {
            return false;
        }
    }
    true
}

/// Whether it is a member; a set that is missing has none.
pub(crate) fn has(set: Option<&SetValue>, member: &[u8]) -> bool
    ensures { result ≡ is_member (found_members (option_copied set.entry)) member.now }
{
    match set {
        None => false,
        Some(set) => set.has(member),
    }
}

/// The members of the first set that are in none of the others, lent by it, in any order.
fn difference<'a>(alloc: Global, sets: &[Option<&'a SetValue>]) -> Result<Vec<&'a [u8]>, AllocError>
    ensures { IfOk result (λ members. with_members [] (lent_texts members.items) ≡ difference (found_sets sets.now)) }
{
    let Some((first, others)) = sets.split_first() else {
        return Ok(Vec::new(alloc));
    };
    let Some(first) = *first else {
        return Ok(Vec::new(alloc));
    };
    kept_in_none(alloc, first, others)
}

/// The members of the set that are in none of the others, lent by it, in any order.
fn kept_in_none<'a>(
    alloc: Global,
    set: &'a SetValue,
    others: &[Option<&SetValue>],
) -> Result<Vec<&'a [u8]>, AllocError>
    ensures { IfOk result (λ kept. with_members [] (lent_texts kept.items)
        ≡ filter (λ member. not (is_in_some (found_sets others.now) member)) set.now) }
{
    let mut kept = Vec::new(alloc);
    let mut members = set.in_any_order();
    while let Some(member) = members.next() {
        if !is_in_some(others, member) {
            kept.push(member)?;
        }
    }
    Ok(kept)
}

/// Whether it is a member of one of these sets.
fn is_in_some(sets: &[Option<&SetValue>], member: &[u8]) -> bool
    ensures { result ≡ is_in_some (found_sets sets.now) member.now }
{
    for set in sets {
        if has(*set, member) {
            return true;
        }
    }
    false
}
