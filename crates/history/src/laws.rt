// What a user of histories says: which lists are legal, which history it is, and what is written of a value at hand.
use std::marker::{Brand, PhantomData};

/// Which histories are legal. It says so of the whole list; what was seen of a history is legal too.
pub trait Law {
    ghost use Rattle.std.specs.Prelude.{List};

    /// What is written. No value of it is ever made, so it may own what nobody has.
    type Entry;

    ghost legal: { List Self.Entry → Type 0 };
}

/// Which history it is, among all of the same law. Whoever names a history passes `Brand`, and picks its name there: what
/// contracts see an `Unnamed` as.
pub trait Naming {
    ghost use Rattle.history.specs.Names.{Name};

    ghost name: { Name };
}

impl Naming for Brand {
    ghost use Rattle.history.specs.Names.{no_name};

    ghost name = { no_name };
}

/// What entry is written of a value at hand. So words that are lent are written without a copy of them.
pub trait Says<X, E> {
    ghost entry: { X → E };
}

/// What entries are written of a value at hand, all by one write.
pub trait SaysAll<X, E> {
    ghost use Rattle.std.specs.Prelude.{List};

    ghost entries: { X → List E };
}

/// The one entry that `M` says.
pub struct Alone<M> {
    says: PhantomData<M>,
}

impl<X, E, M: Says<X, E>> SaysAll<X, E> for Alone<M> {
    ghost use Rattle.std.specs.Prelude.{[], ◌∷◌};

    ghost entries = { λ x. M.entry x ∷ [] };
}

/// The value is the entry.
pub struct Itself;

impl<E> Says<E, E> for Itself {
    ghost entry = { λ e. e };
}
