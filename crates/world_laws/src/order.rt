//! The laws of order.
ghost use Rattle.world_laws.specs.Order.{GroupsAgree, FinalIsGreatest, FinalIsProposed, FinalStampsDiffer, StampsOfConnectionRise};
ghost use Rattle.world_laws.specs.Order.{ClockIsAboveProposals, ClockIsAboveDeliveries, ClocksAreBounded, DeliveriesAscend};
ghost use Rattle.world_laws.specs.Order.{AskedOfItsGroups, PacketsGoToAddressed, DeliveriesAreAddressed, OthersKeepStill, ReadyIsFirst};
ghost use Rattle.world_laws.specs.Order.{LinedUpIsBehindAlone};
ghost use Rattle.world_laws.specs.Order.{EndsOnce, EndsAsSubmitted, TouchingEndInStampOrder, EndedIsKept};

/// The order in which requests are delivered and run, and which of them are ready or lined up, for every history
/// of steps. It does nothing: its contract states the laws.
pub fn order_of_requests()
    ensures groups_agree { GroupsAgree }
    ensures final_is_greatest { FinalIsGreatest }
    ensures final_is_proposed { FinalIsProposed }
    ensures final_stamps_differ { FinalStampsDiffer }
    ensures stamps_of_connection_rise { StampsOfConnectionRise }
    ensures clock_is_above_proposals { ClockIsAboveProposals }
    ensures clock_is_above_deliveries { ClockIsAboveDeliveries }
    ensures clocks_are_bounded { ClocksAreBounded }
    ensures deliveries_ascend { DeliveriesAscend }
    ensures asked_of_its_groups { AskedOfItsGroups }
    ensures packets_go_to_addressed { PacketsGoToAddressed }
    ensures deliveries_are_addressed { DeliveriesAreAddressed }
    ensures others_keep_still { OthersKeepStill }
    ensures ready_is_first { ReadyIsFirst }
    ensures lined_up_is_behind_alone { LinedUpIsBehindAlone }
    ensures ends_once { EndsOnce }
    ensures ends_as_submitted { EndsAsSubmitted }
    ensures touching_end_in_stamp_order { TouchingEndInStampOrder }
    ensures ended_is_kept { EndedIsKept }
{}
