//! The store with its rows: what runs layers, under a lock of its own.
//!
//! It knows no connection and no multicast. Whoever brings it a layer may have agreed on its order with nobody: it makes the
//! tests itself on which its promise rests, that its replies and its contents are those of one thread in stamp order.
#![tactic(auto)]

mod back;
mod room;
mod running;

pub use back::Back;
