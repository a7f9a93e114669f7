//! Systems for tests.

use crate::trouble::Trouble;
use placement::Table;
use std::alloc::Global;
use system::System;

/// The table of so many shards, each with as many slots.
pub(crate) fn table_of(alloc: Global, shards: u64) -> Result<Table, Trouble> {
    if shards == 0 || shards > 64 {
        return Err("1 to 64 shards".into());
    }
    let mut text = format!(in alloc; "shards = {shards}\n")?;
    for shard in 0..shards {
        let (from, to) = (shard * 1024 / shards, (shard + 1) * 1024 / shards - 1);
        write!(
            text,
            "[[range]]\nfrom = {from}\nto = {to}\nshard = {shard}\n"
        )?;
    }
    Ok(Table::from_toml(alloc, text.as_str())?)
}

/// A system on so many shards that makes at most so many steps.
pub(crate) fn system_of(alloc: Global, shards: u64, max_steps: u64) -> Result<System, Trouble> {
    if max_steps == 0 || max_steps > 1_000_000 {
        return Err("1 to 1,000,000 steps".into());
    }
    Ok(System::new(alloc, table_of(alloc, shards)?, max_steps)?)
}
