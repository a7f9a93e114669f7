//! The layer that is under way.

use layer_planner::Layer;
use layer_results::Done;

/// How far the layer is that is under way, if one is.
#[derive(Drop)]
pub enum Stage {
    /// None is.
    Free,
    /// It was taken, and is to be run.
    Taken(Layer),
    /// It was run, and what came of it is to be told to the front.
    HasRun(Done),
}

/// How far the layer is that is under way, apart from what is in it.
#[derive(Clone, Copy, Debug, PartialEq, Eq)]
pub enum Progress {
    /// None is under way.
    Free,
    /// It was taken, and is to be run.
    Taken,
    /// It was run, and is to be settled.
    HasRun,
}
