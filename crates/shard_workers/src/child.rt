//! What a thread that runs a load promises.

use crate::{Load, Ran};
use groups::SkipId;
use placement::Table;
use std::snapshot::Snapshot;
use std::thread::{Promise, PromisedHandle};

/// What a thread promises: that it runs this load, with the keys placed by this table, but for what these name.
#[derive(Drop)]
pub struct RunOfLoad<'s> {
    pub table: Snapshot<Table>,
    pub load: Snapshot<Load>,
    pub skip: Snapshot<&'s [SkipId]>,
}

impl<'s> Promise<Vec<Ran>> for RunOfLoad<'s> {
    ghost use Rattle.shard_workers.specs.Loads.{HasRunLoad};

    ghost kept_by = { λ p r. HasRunLoad p.table.value p.skip.value.now p.load.value r };
}

/// The handle of a thread that runs a load.
pub type Child<'s> = PromisedHandle<Vec<Ran>, RunOfLoad<'s>>;
