//! How a cluster is closed beside a store that ran what no front handed out; where no layer is handed out; and the steps
//! that are kept back for one that is out.

use crate::naming::{MOST, with_cluster};

#[test]
fn a_store_that_ran_the_same_layer(rt: HostRuntime) {
    let script = "sit; submit 1 SET a 1; turn; take => 1; 1; 1; 1
run; settle => 1; settled
stand 1; close => stood; closed 1 1 0";
    with_cluster(&rt, rt.alloc(), MOST, false, script);
}

/// The store runs a layer more, which no front handed out.
#[test]
fn a_store_that_ran_a_layer_more(rt: HostRuntime) {
    let script = "sit; submit 1 SET a 1; turn; take => 1; 1; 1; 1
run; stray 1; settle => 1; 2; settled
stand 1; close => stood; Disagree";
    with_cluster(&rt, rt.alloc(), MOST, false, script);
}

/// The store has run a layer that no front handed out before it comes to the one that is out, which is refused for good.
#[test]
fn a_store_that_ran_another_layer(rt: HostRuntime) {
    let script = "sit; submit 1 SET a 1; turn; take => 1; 1; 1; 1
stray 0; run => 1; refused
stand 1; close => stood; NotQuiet";
    with_cluster(&rt, rt.alloc(), MOST, false, script);
}

/// Another layer is to be taken while one is out, and where no request is ready.
#[test]
fn one_layer_is_out(rt: HostRuntime) {
    let script = "sit; submit 1 SET a 1; turn; take => 1; 1; 1; 1
take => InFlight
run; settle => 1; settled
take => NoLayer
stand 1; close => stood; closed 1 1 0";
    with_cluster(&rt, rt.alloc(), MOST, false, script);
}

/// An Open, a Submit, a Deliver, a Take, and the Run and the Settle that are kept back for it.
#[test]
fn two_steps_are_kept_back(rt: HostRuntime) {
    let script = "sit; submit 1 SET a 1; turn; take => 1; 1; 1; 1
sit => Exhausted
run; settle => 1; settled
stand 1; close => stood; closed 1 1 0";
    with_cluster(&rt, rt.alloc(), 6, false, script);
}
