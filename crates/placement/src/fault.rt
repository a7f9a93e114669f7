//! Why a text is no placement table.

use std::alloc::AllocError;
use thiserror::Error;

/// Why a text is no placement table. Where several of these are true of a text, the answer is the first of `Toml`,
/// `Shard`, `Twice` and `Missing`. None of them leaves anything behind. Each has its number, from 1.
#[derive(Clone, Copy, Debug, PartialEq, Eq, Error)]
pub enum TableFault {
    /// 1: the text is no TOML, or a document of another shape.
    #[error("not a TOML document of `shards` and tables `range` of `from`, `to` and `shard`")]
    Toml,
    /// 2: a slot is in no range.
    #[error("a slot is in no range")]
    Missing,
    /// 3: a slot is in two ranges.
    #[error("a slot is in two ranges")]
    Twice,
    /// 4: `shards` is not 1 to 64, or a range's `shard` is not 0 to `shards` less one.
    #[error("`shards` is not 1 to 64, or a `shard` is not below it")]
    Shard,
    /// 5: there is no memory to read it.
    #[error("out of memory")]
    Memory,
}

impl From<AllocError> for TableFault {
    ghost use Rattle.std.specs.Prelude.{◌≡◌};
    ghost use Rattle.placement.specs.declared.fault.TableFault.TheVariants.{Memory};

    ghost from_gives = { λ _ fault. fault ≡ Memory };

    fn from(_error: AllocError) -> TableFault {
        TableFault::Memory
    }
}
