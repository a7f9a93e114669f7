//! Rows in the order of their stamps.

ghost use Rattle.std.specs.Prelude.{IfOk, List};
ghost use Rattle.std.specs.List.{AllZip};
ghost use Rattle.execution_order.specs.Entries.{Row as Executed, rows_by_stamp};
ghost use Rattle.front.specs.Layers.{IsRow};
ghost use Rattle.replay.specs.Order.{ArePlaced};

use journal::Rows;
use std::alloc::{AllocError, Global};
use std::collections::BTreeSet;

/// The clock and the group of a row's stamp, and the row's place.
pub(super) type Key = (u64, u8, usize);

/// The places of the rows, ascending by the rows' stamps. The only error is want of memory.
pub(super) fn by_stamp(alloc: Global, rows: &Rows) -> Result<BTreeSet<Key>, AllocError>
    ensures { IfOk result (λ order. (executed : List Executed) → AllZip IsRow executed rows.now.rows
        → ArePlaced executed order.keys (rows_by_stamp executed)) }
{
    let mut order = BTreeSet::new(alloc);
    let count = rows.len();
    for done in 0..count {
        let place = count - 1 - done;
        let Some(row) = rows.row(place) else {
            unreachable!()
        };
        let stamp = row.stamp();
        let Ok(_) = order.insert((stamp.clock, stamp.group.number(), place)) else {
            return Err(AllocError);
        };
    }
    Ok(order)
}
