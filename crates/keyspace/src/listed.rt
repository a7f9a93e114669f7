//! The entries of a keyspace, one after another.

ghost use Rattle.std.specs.Prelude.{◌≡◌, ℕ, List, option_map, slice_get};
ghost use Rattle.std.specs.FinMap.{from_entries};
ghost use Rattle.std.specs.List.{IsDistinct};
ghost use Rattle.std.specs.Map.{keys_of};
ghost use Rattle.std.specs.Str.{bytes_eq};
ghost use Rattle.values.specs.declared.Value.{Value};

use crate::Keyspace;
use values::Value;

/// A keyspace whose entries can be gone through by their places, for whoever prints or copies all of it.
///
/// Contracts see the entries as they are `listed`: each key once, in no promised order, which holds until the next
/// change.
pub trait Listed: Keyspace {
    ghost listed: { Self → List (List ℕ × Value) };

    /// The entry at this place; none from the number of keys on.
    fn entry(&self, place: usize) -> Option<(&[u8], &Value)>
        ensures entry { option_map (λ e. (e.0.now, e.1.now)) result ≡ slice_get (listed self.now) place }
        ensures contents { Self.contents self.now ≡ from_entries (listed self.now) }
        ensures each_once { IsDistinct bytes_eq (keys_of (listed self.now)) };
}
