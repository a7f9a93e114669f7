//! What holds of the rule itself, over every list of packets that one group receives.
ghost use Rattle.skeen_core.specs.Runs.{ClockNeverFalls, ClockIsAboveStamps, DeliveriesAscend, DeliveredIsForgotten};
ghost use Rattle.skeen_core.specs.Runs.{PastIsReached, RepeatsChangeNothing, RuleDetermines};

/// The laws of the rule that `Group::receive` keeps. It does nothing: its contract states them.
pub fn laws_of_one_group()
    ensures clock_never_falls { ClockNeverFalls }
    ensures clock_is_above_stamps { ClockIsAboveStamps }
    ensures deliveries_ascend { DeliveriesAscend }
    ensures delivered_is_forgotten { DeliveredIsForgotten }
    ensures past_is_reached { PastIsReached }
    ensures repeats_change_nothing { RepeatsChangeNothing }
    ensures rule_determines { RuleDetermines }
{}
