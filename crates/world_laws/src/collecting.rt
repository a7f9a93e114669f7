//! What connections are told.
ghost use Rattle.world_laws.specs.Collecting.{AskedAsSubmitted, CollectsItsOwn, CollectedOnce};
ghost use Rattle.world_laws.specs.Sessions.{SessionsAreOfTrace};

/// What is asked of groups is what a connection's words come to in its session; a connection collects what came of its own
/// last request, and that once. Its session is what its submits, in their order, have made of a free one. It does nothing:
/// its contract states the laws.
pub fn collecting_of_outcomes()
    ensures asked_as_submitted { AskedAsSubmitted }
    ensures collects_its_own { CollectsItsOwn }
    ensures collected_once { CollectedOnce }
    ensures sessions_are_of_trace { SessionsAreOfTrace }
{}
