//! Known texts, values and packets, through the public calls of their crates: what commands work on and where it lies, the
//! decoder's rows, replies, traces, and a group of the multicast.
#![tactic(auto)]

#[cfg(test)]
mod decoder;
#[cfg(test)]
mod dump_texts;
#[cfg(test)]
mod group;
#[cfg(test)]
mod group_search;
#[cfg(test)]
mod group_sets;
#[cfg(test)]
mod keys;
#[cfg(test)]
mod places;
#[cfg(test)]
mod plain_group;
#[cfg(test)]
mod repeats;
#[cfg(test)]
mod rows;
#[cfg(test)]
mod trace;
#[cfg(test)]
mod value_types;
#[cfg(test)]
mod watched;
#[cfg(test)]
mod whole_numbers;
#[cfg(test)]
mod written;
