//! Traces that are replayed to their end, and their reports.

use crate::tests::showing::is_shown;
use crate::tests::traces::{
    ALL_KEYS, CROSSING, CROSSING_BEFORE_COPIES, FLUSHED_BEFORE, FLUSHED_BEHIND,
    LATE_WITH_A_SMALL_STAMP, LAYER_OF_TWO, MEMBER_STARVED, NO_STEP, REPEATED, Row,
    SECOND_OF_TWO_STARVES, STARVED, TRANSACTION, UNKNOWN_IN_TWO, UNSETTLED, large_report,
    large_trace,
};
use std::test::Fail;

const ROWS: [Row; 15] = [
    CROSSING,
    STARVED,
    FLUSHED_BEHIND,
    FLUSHED_BEFORE,
    LATE_WITH_A_SMALL_STAMP,
    LAYER_OF_TWO,
    SECOND_OF_TWO_STARVES,
    UNSETTLED,
    NO_STEP,
    REPEATED,
    CROSSING_BEFORE_COPIES,
    MEMBER_STARVED,
    TRANSACTION,
    ALL_KEYS,
    UNKNOWN_IN_TWO,
];

#[test]
fn traces_have_their_reports(rt: HostRuntime) -> Result<(), Fail> {
    for row in &ROWS {
        is_shown(&rt, rt.alloc(), row.name, row.trace, 0, row.report)?;
    }
    Ok(())
}

#[test]
fn a_layer_of_large_sets_has_its_report(rt: HostRuntime) -> Result<(), Fail> {
    let trace = large_trace(rt.alloc())?;
    let report = large_report(rt.alloc())?;
    is_shown(
        &rt,
        rt.alloc(),
        "a layer of large sets",
        trace.as_str(),
        0,
        report.as_str(),
    )
}
