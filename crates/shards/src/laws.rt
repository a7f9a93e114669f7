//! Laws of the shards' maps as one map.
//!
//! Each shard has the keys that the table places there. Their maps together are the joined map, and what a task
//! does to the shards of its groups it does to the joined map. A layer's tasks are run in units: those that address
//! one group alone, one after another, or one of several groups. Units share no group, so each can be run over its own
//! shards, in any order and at once: it comes to the same as to run the tasks one after another. The executor of layers
//! stands on these laws.

ghost use Rattle.shards.specs.Laws.{KeysLieOnTheirShards, SpansAreJoined, LayersAreInTurn};
ghost use Rattle.shards.specs.Laws.{TakenOutAsTheyWere, PartsAreInTurn, WorksAreInTurn, StarvedLeaveNoTrace};

/// What holds of the shards' maps and the joined map. It does nothing: its contract states the laws.
///
/// - The joined map has at a key what the key's shard has there.
/// - A task that is run over the shards of its groups is run on the joined map, and each shard has only its own keys
///   again.
/// - The tasks of a layer, run in units, each over the shards of its groups, are run one after another on the joined
///   map, in the layer's order.
/// - Each unit gets its shards as they were, also where the shards are taken out one after another.
/// - However the units are dealt to parts, once the shards are put back it is as if the tasks had been run one after
///   another.
/// - So it is where the units are run in place, one after another.
/// - What is answered one after another is what one thread does with the tasks that did not starve, each but for its members
///   that did.
pub fn laws_of_joined_maps()
    ensures keys_lie_on_their_shards { KeysLieOnTheirShards }
    ensures spans_are_joined { SpansAreJoined }
    ensures layers_are_in_turn { LayersAreInTurn }
    ensures taken_out_as_they_were { TakenOutAsTheyWere }
    ensures parts_are_in_turn { PartsAreInTurn }
    ensures works_are_in_turn { WorksAreInTurn }
    ensures starved_leave_no_trace { StarvedLeaveNoTrace }
{}
