//! The greatest numbers that the words may say: what is asked for is no memory that is taken.

use crate::clients::Act;
use crate::clients::Does::{Asks, Ends, Gets, Unlists};
use crate::hosting::{End, serve_by};
use crate::words::words_of;
use options::server::read_options;
use std::test::Fail;

/// A thousand million connections and 2^62 steps.
const GREAT: &str = "--table t --connections 1000000000 --max-steps 4611686018427387904";

/// A client is served, and no other can be accepted.
#[rattlefmt::skip]
const SERVED: [Act<'static>; 4] = [
    (0, Asks("SET a 1")),
    (0, Gets("+OK|")),
    (0, Ends),
    (0, Unlists),
];

/// When no other client can be accepted, the server ends by 4.
#[test]
fn great_numbers_take_nothing(rt: HostRuntime) -> Result<(), Fail> {
    let words = words_of(rt.alloc(), GREAT)?;
    let options = read_options(rt.alloc(), words.as_slice())?;
    serve_by(&rt, &options, 2, &SERVED, End::Bare(4))
}
