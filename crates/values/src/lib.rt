//! What a key holds.
//!
//! The kinds of value are Redis' (<https://redis.io/docs/latest/develop/data-types/>). Each kind is a small type that
//! contracts see as its meaning, so values are compared by `≡`, wherever they lie in memory. `keyspace` maps keys to
//! values, and the bodies of the commands read and change them.
#![tactic(auto)]

ghost use Rattle.std.specs.Prelude.{◌≡◌};
ghost use Rattle.values.specs.Value.{type_name};

mod hash_value;
mod items;
mod list_value;
mod member_table;
mod pair_table;
mod set_value;

pub use hash_value::HashValue;
pub use items::Items;
pub use list_value::ListValue;
pub use set_value::SetValue;
use texts::Text;

/// The value of a key. Only a string can be empty: a list, a hash or a set that becomes empty goes with its key.
///
/// Contracts see the meaning of each kind: `Str (List ℕ)` its bytes, `List (List (List ℕ))` the items from head to
/// tail, `Hash` the pairs of field and value in order of insertion, `Set` the members in ascending order.
#[derive(Drop)]
pub enum Value {
    /// A string of any bytes, the empty one included.
    Str(Text),

    /// A list of at least one byte string.
    List(ListValue),

    /// A hash of at least one field.
    Hash(HashValue),

    /// A set of at least one member.
    Set(SetValue),
}

impl Value {
    /// The name of the value's type.
    pub fn type_name(&self) -> &'static str
        ensures { result.now ≡ type_name self.now }
    {
        match self {
            Value::Str(_) => "string",
            Value::List(_) => "list",
            Value::Hash(_) => "hash",
            Value::Set(_) => "set",
        }
    }
}
