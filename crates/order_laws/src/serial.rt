//! The layers of a history beside those that a store has run.
ghost use Rattle.order_laws.specs.Truth.{RowsAreOfRuns, RunsAreSerial, SerialIsTrue};

/// Where a store's layers are those that a history ran, their rows and names are those of what has ended, and each
/// reply is what one thread gets there. And where the store has run one layer more, the one that waits in the history's world, and
/// each reply is still what one thread gets, the world runs that layer with just those starving, and the same comes of it. It does
/// nothing: its contract states the laws.
pub fn layers_of_stores()
    ensures rows_are_of_runs { RowsAreOfRuns }
    ensures runs_are_serial { RunsAreSerial }
    ensures serial_is_true { SerialIsTrue }
{}
