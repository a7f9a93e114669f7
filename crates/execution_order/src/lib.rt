//! Requests in the order in which they were executed, and in the order of their stamps.
//!
//! Requests that share no group may be executed in any order, and a later request may get a smaller stamp than one
//! that was executed before it. Two requests that share a group are executed in stamp order. That is enough: the
//! replies and the map are those of one thread that runs all of them in stamp order. What the system promises stands
//! on this law.
#![tactic(auto)]

ghost use Rattle.execution_order.specs.Laws.{UntouchedCommute, SameInStampOrder, RepliesInStampOrder};
ghost use Rattle.execution_order.specs.Laws.{RowsAreSolo, SortingAscends};

/// That requests that share no group can change places: each answers what it would have answered first, and both
/// leave the same map in either order.
pub fn untouched_commute()
    ensures { UntouchedCommute }
{}

/// That requests of which touching ones were executed in stamp order have the same replies, and leave the same map,
/// as if one thread had run all of them in stamp order.
///
/// It is told of requests and the rows that one thread makes of them, and of rows whose replies are those of one
/// thread in the order of execution.
pub fn same_in_stamp_order()
    ensures rows { SameInStampOrder }
    ensures replies { RepliesInStampOrder }
{}

/// What rows and sorted rows are: the rows of requests are what one thread does with their deeds; sorted rows are
/// the same rows, and their requests ascend by stamp.
pub fn laws_of_rows()
    ensures rows_are_solo { RowsAreSolo }
    ensures sorting_ascends { SortingAscends }
{}
