//! The law of what came of a store's layers.

use history::{Law, Says};
use layer_results::Done;
use std::marker::{Brand, PhantomData};

/// By which table keys lie, since a law has no other argument. Whoever makes a store passes `Brand`, and picks the table there.
pub trait Tabled {
    ghost use Rattle.placement.specs.Layout.{Layout};

    ghost table: { Layout };
}

impl Tabled for Brand {
    ghost use Rattle.serial_store.specs.Tables.{no_table};

    ghost table = { no_table };
}

/// What came of layers, of which there is no value: each reply is what one thread gets that runs the requests in turn.
pub struct Serial<T> {
    of: PhantomData<T>,
}

impl<T: Tabled> Law for Serial<T> {
    ghost use Rattle.serial_store.specs.Serial.{AreSerial};

    type Entry = Done;

    ghost legal = { λ dones. AreSerial T.table dones };
}

/// What is lent is the entry: so it is written without a copy.
pub struct Lent;

impl<'a, E> Says<&'a E, E> for Lent {
    ghost entry = { λ e. e.now };
}
