//! What the system owes to what it calls.
ghost use Rattle.world_laws.specs.Conditions.{PacketsMayCome, FreshIsHeard, QueuesAreSound, DeliveriesMayAppend, LayersAreSubmitted};
ghost use Rattle.world_laws.specs.Conditions.{LayersAreAbove, SettledIsWaitedFor, SettledIsLast, FloorsAreFinal, FloorsStay};
ghost use Rattle.world_laws.specs.Conditions.{NumbersAreBounded};

/// What a group, its queue, the shards and the router ask of their caller holds in every world, and no packet under way
/// is past at a group that hasn't delivered its request. It does nothing: its contract states the laws.
pub fn callers_conditions()
    ensures packets_may_come { PacketsMayCome }
    ensures fresh_is_heard { FreshIsHeard }
    ensures queues_are_sound { QueuesAreSound }
    ensures deliveries_may_append { DeliveriesMayAppend }
    ensures layers_are_submitted { LayersAreSubmitted }
    ensures layers_are_above { LayersAreAbove }
    ensures settled_is_waited_for { SettledIsWaitedFor }
    ensures settled_is_last { SettledIsLast }
    ensures floors_are_final { FloorsAreFinal }
    ensures floors_stay { FloorsStay }
    ensures numbers_are_bounded { NumbersAreBounded }
{}
