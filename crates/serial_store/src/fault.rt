//! Why a layer wasn't run.

use layer_planner::Layer;
use shard_exec::ExecFault;

/// Why a layer was not run.
#[derive(Drop)]
pub enum Unrun {
    /// 1: its turn has not come, or is past. Nothing has changed.
    OutOfTurn(Layer),
    /// 2: the store doesn't run it.
    Refused(ExecFault),
}
