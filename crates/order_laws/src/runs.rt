//! What came of the layers of a history.
ghost use Rattle.order_laws.specs.Runs.{OthersLeaveLayers, LayersAreInTurn, SettledAreCounted, RunsStay, SettledStay};
ghost use Rattle.order_laws.specs.Runs.{RunsAgree, LaterRunBehind};

/// Each Run of a history runs what the Take of its number handed out, each Settle settles what the Run of its number ended, and what
/// has ended is what the Runs ended, in their order. That stays as steps are added, so of two histories that begin one list the runs
/// of the one that ran fewer layers begin those of the other. A request that was submitted later ends behind all that had ended. It
/// does nothing: its contract states the laws.
pub fn runs_of_layers()
    ensures others_leave_layers { OthersLeaveLayers }
    ensures in_turn { LayersAreInTurn }
    ensures settled_are_counted { SettledAreCounted }
    ensures runs_stay { RunsStay }
    ensures settled_stay { SettledStay }
    ensures runs_agree { RunsAgree }
    ensures later_run_behind { LaterRunBehind }
{}
