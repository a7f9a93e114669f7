//! A list at a key, taken out to be changed and put back, and copies of items.

ghost use Rattle.std.specs.Prelude.{◌≡◌, ◌<◌, [], length, slice_get, IfOk, IsTrue, IsSome, Some};
ghost use Rattle.std.specs.FinMap as map;
ghost use Rattle.std.specs.Option.{option_map};
ghost use Rattle.keyspace.specs.Map.{set};
ghost use Rattle.list_commands.specs.ListCommand.{is_list};
ghost use Rattle.values.specs.declared.Value.TheVariants as kind;

use keyspace::Keyspace;
use std::alloc::{AllocError, Global};
use texts::Text;
use values::{ListValue, Value};

/// Takes the list at a key out; the key keeps its place, with the empty string. It takes no memory.
#[tactic(auto, using(keyspace::proofs::Changes::changes))]
pub(crate) fn take_list<K: Keyspace>(alloc: Global, keyspace: &mut K, key: &[u8]) -> ListValue
    requires covered { IsTrue (K.covered key.now) }
    requires there { IsTrue (is_list (map.get (K.contents keyspace.old) key.now)) }
    ensures list { map.get (K.contents keyspace.old) key.now ≡ Some (kind.List result) }
    ensures held { K.contents keyspace.new ≡ map.insert (K.contents keyspace.old) key.now (kind.Str []) }
{
    let Value::List(list) = keyspace.replace(key, Value::Str(Text::empty(alloc))) else {
        unreachable!();
    };
    list
}

/// Puts what is left of a list at a key that is there; the key goes where nothing is left. It takes no memory.
pub(crate) fn leave_list<K: Keyspace>(keyspace: &mut K, key: &[u8], left: Option<ListValue>)
    requires covered { IsTrue (K.covered key.now) }
    requires there { IsSome (map.get (K.contents keyspace.old) key.now) }
    ensures left { K.contents keyspace.new ≡ set (K.contents keyspace.old) key.now (option_map kind.List left) }
{
    match left {
        Some(list) => {
            keyspace.replace(key, Value::List(list));
        }
        None => {
            keyspace.take(key);
        }
    }
}

/// A copy of the item at a place.
pub(crate) fn copy_at(alloc: Global, list: &ListValue, place: usize) -> Result<Text, AllocError>
    requires { place < length list.now }
    ensures { IfOk result (λ copy. slice_get list.now place ≡ Some copy) }
{
    Text::copy_of(alloc, item_at(list, place))
}

/// The item at a place.
pub(crate) fn item_at(list: &ListValue, place: usize) -> &[u8]
    requires { place < length list.now }
    ensures { slice_get list.now place ≡ Some result.now }
{
    let Some(item) = list.item(place) else {
        unreachable!();
    };
    item
}
