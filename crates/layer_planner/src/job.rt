//! A request that is to be run.

use groups::{Groups, RequestId, Stamp};
use worded::Worded;

/// A delivered request with what it asks: its id, its final stamp, the groups on which its keys lie, and its batch with
/// the words that say it.
#[derive(Drop)]
pub struct Job {
    pub id: RequestId,
    pub stamp: Stamp,
    pub groups: Groups,
    pub asked: Worded,
}
