//! Keys and their values.
//!
//! A keyspace is a finite map from byte strings to values. `Keyspace` is what the bodies of commands use of it, so that
//! a body is written and proved once for one table and for the shards of several. `Plain` is the one table.
#![tactic(auto)]

mod listed;
mod plain;

ghost use Rattle.std.specs.Prelude.{◌≡◌, ℕ, List, Bool, IsTrue, IsSome, OnOk, OnErr, IfOk, IfErr, pos, min};
ghost use Rattle.std.specs.FinMap as map;
ghost use Rattle.std.specs.Borrow.{sem};
ghost use Rattle.std.specs.Option.{option_copied, option_copied_mut};
ghost use Rattle.keyspace.specs.Lends.{lends_value};
ghost use Rattle.keyspace.specs.Map.{Map, set};

use hashed_texts::TextHasher;
pub use listed::Listed;
pub use plain::Plain;
use values::Value;

/// The keys that a command may touch, with their values.
///
/// Contracts see the `contents`, a finite map, and the keys that are `covered`: a type of keyspaces may stand for a part of
/// all keys, and a key that is handed to one of these calls has to be covered. Only `put` takes memory.
pub trait Keyspace {
    ghost contents: { Self → Map };

    ghost covered: { List ℕ → Bool };

    /// Whether this keyspace is responsible for the key, whether the key is there or not.
    fn covers(&self, key: &[u8]) -> bool
        ensures { result ≡ covered key.now };

    /// The value at the key, to be read.
    fn look(&self, key: &[u8]) -> Option<&Value>
        requires { IsTrue (covered key.now) }
        ensures { option_copied result ≡ map.get (contents self.now) key.now };

    /// The value at the key, to be changed where it lies.
    fn look_mut(&mut self, key: &[u8]) -> Option<&mut Value>
        requires { IsTrue (covered key.now) }
        ensures* writes_back { sem 𝓛 (lends_value Self.row contents self.entry key.now result) }
        ensures value { option_copied_mut result ≡ map.get (contents self.old) key.now };

    /// Removes the key and gives its value.
    fn take(&mut self, key: &[u8]) -> Option<Value>
        requires { IsTrue (covered key.now) }
        ensures before { result ≡ map.get (contents self.old) key.now }
        ensures removed { contents self.new ≡ map.remove (contents self.old) key.now };

    /// Sets the key and gives the value that it had.
    ///
    /// It is refused only for want of memory at a key that isn't there. Then nothing has changed, and key and value
    /// come back.
    fn put(&mut self, key: Vec<u8>, value: Value) -> Result<Option<Value>, (Vec<u8>, Value)>
        requires { IsTrue (covered key.items) }
        ensures before { IfOk result (λ before. before ≡ map.get (contents self.old) key.items) }
        ensures ok { OnOk result (contents self.new ≡ map.insert (contents self.old) key.items value) }
        ensures absent { OnErr result (map.get (contents self.old) key.items ≡ None) }
        ensures err { OnErr result (contents self.new ≡ contents self.old) }
        ensures returned { IfErr result (λ back. back ≡ (key, value)) };

    /// Sets a key that is there and gives the value that it had.
    fn replace(&mut self, key: &[u8], value: Value) -> Value
        requires covered { IsTrue (covered key.now) }
        requires there { IsSome (map.get (contents self.old) key.now) }
        ensures before { map.get (contents self.old) key.now ≡ Some result }
        ensures replaced { contents self.new ≡ map.insert (contents self.old) key.now value };

    /// The number of keys, or 9223372036854775807 where there are more.
    fn size(&self) -> i64
        ensures { result ≡ pos (min (map.len (contents self.now)) 9223372036854775807) };

    /// By what the values hash their members and fields that are made for this keyspace. No contract speaks of it, since
    /// no value shows by what it hashes.
    fn hasher(&self) -> TextHasher;

    /// Removes all keys.
    fn clear(&mut self)
        ensures cleared { contents self.new ≡ map.empty };
}

/// Leaves a value at a key that is there; none removes the key.
///
/// It is for bodies that change a value that can become empty. It takes no memory.
pub fn leave<K: Keyspace>(keyspace: &mut K, key: &[u8], value: Option<Value>)
    requires covered { IsTrue (K.covered key.now) }
    requires there { IsSome (map.get (K.contents keyspace.old) key.now) }
    ensures left { K.contents keyspace.new ≡ set (K.contents keyspace.old) key.now value }
{
    match value {
        Some(value) => {
            keyspace.replace(key, value);
        }
        None => {
            keyspace.take(key);
        }
    }
}
