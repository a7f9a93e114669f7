//! A history of numbers, of which every list is legal, written from two threads.

ghost use Rattle.std.specs.Prelude.{◌≡◌};

use history::{Itself, Law, Naming, Part, Unnamed, Writer, write_in_threads};
use std::marker::Brand;
use std::mem::size_of;
use std::process::Abort;
use std::sync::Wait;
use std::test::*;
use std::thread::Threads;

/// Every list of numbers is legal.
struct AnyNumbers;

impl Law for AnyNumbers {
    type Entry = u64;

    ghost legal = { λ numbers. Unit {0} };
}

#[test]
fn two_threads(rt: HostRuntime) -> Result<(), Fail> {
    let unnamed = Unnamed::open();
    write_three::<Brand, HostRuntime>(&rt, unnamed)
}

fn write_three<J: Naming + Send + Sync, R: Threads + Wait + Abort + Sync>(
    rt: &R,
    unnamed: Unnamed<AnyNumbers>,
) -> Result<(), Fail>
    requires { unnamed ≡ J.name }
{
    let writer = unnamed.named::<J>();
    let orders = write_in_threads::<AnyNumbers, J, u64, Itself, R>(rt, writer, 1, 2, 3);
    orders.first.begins(&orders.last);
    assert!(rt; size_of::<Part<AnyNumbers, J>>() == 0);
    assert!(rt; size_of::<Writer<AnyNumbers, J>>() == 0);
    Ok(())
}
