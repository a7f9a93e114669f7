//! Layers of requests in the words of a user, run over the shards by workers of every kind.
#![tactic(auto)]

#[cfg(test)]
mod backs;
#[cfg(test)]
mod execs;
#[cfg(test)]
mod held;
#[cfg(test)]
mod jobs;
#[cfg(test)]
mod kept;
#[cfg(test)]
mod layers;
#[cfg(test)]
mod many;
#[cfg(test)]
mod memory;
#[cfg(test)]
mod parts;
#[cfg(test)]
mod queue_layers;
#[cfg(test)]
mod queue_runs;
#[cfg(test)]
mod queues;
#[cfg(test)]
mod trouble;
#[cfg(test)]
mod units;
