//! Some units of a layer, in the order in which one worker runs them.
ghost use Rattle.std.specs.Prelude.{◌≡◌, ◌<◌, ◌≤◌, ◌-◌, [], ◌∷◌, ◌++◌, length, take, drop, slice_index_or, IfOk};
ghost use Rattle.std.specs.List.{concat};
ghost use Rattle.layer_planner.specs.Parts.{start_of};

use std::alloc::{AllocError, Global};
use std::marker::Model;

/// Units of a layer that one worker runs in turn. A contract sees them as a list of lists of places, counted from 0.
#[derive(Drop)]
pub struct Part {
    pub(super) places: Vec<usize>,
    pub(super) ends: Vec<usize>,
}

impl Model for Part {
    ghost use Rattle.std.specs.Prelude.{ℕ, List, length};
    ghost use Rattle.layer_planner.specs.Parts.{cut, AreEnds};

    ghost Value = { List (List ℕ) };

    ghost view = { λ p. cut 0 p.places.items p.ends.items };

    ghost invariant = { λ p. AreEnds 0 p.ends.items (length p.places.items) };
}

impl Part {
    /// No unit. It takes no memory.
    pub(super) fn empty(alloc: Global) -> Self
        ensures { result ≡ [] }
    {
        Part {
            places: Vec::new(alloc),
            ends: Vec::new(alloc),
        }
    }

    /// These units and one more.
    pub(super) fn with(self, unit: &[usize]) -> Result<Self, AllocError>
        ensures { IfOk result (λ part. part ≡ self ++ unit.now ∷ []) }
    {
        let Part {
            mut places,
            mut ends,
        } = self;
        places.extend_from_slice(unit)?;
        ends.push(places.len())?;
        Ok(Part { places, ends })
    }

    /// How many units there are.
    pub fn len(&self) -> usize
        ensures { result ≡ length self.now }
    {
        self.ends.len()
    }

    /// The places of one unit, ascending.
    pub fn unit(&self, number: usize) -> &[usize]
        requires there { number < length self.now }
        ensures { result.now ≡ slice_index_or self.now number [] }
    {
        let ends = self.ends.as_slice();
        between(
            self.places.as_slice(),
            start_of(ends, number),
            end_of(ends, number),
        )
    }

    /// The places of all its units, one unit after another.
    pub fn places(&self) -> &[usize]
        ensures { result.now ≡ concat self.now }
    {
        self.places.as_slice()
    }
}

/// Where the unit of this number begins.
fn start_of(ends: &[usize], number: usize) -> usize
    requires { number < length ends.now }
    ensures { result ≡ start_of ends.now number }
{
    if number == 0 {
        return 0;
    }
    ends[number - 1]
}

/// Where it ends.
fn end_of(ends: &[usize], number: usize) -> usize
    requires { number < length ends.now }
    ensures { result ≡ slice_index_or ends.now number 0 }
{
    ends[number]
}

/// The places from one up to another.
fn between(places: &[usize], start: usize, end: usize) -> &[usize]
    requires start { start ≤ end }
    requires end { end ≤ length places.now }
    ensures { result.now ≡ take (end - start) (drop start places.now) }
{
    &places[start..end]
}
