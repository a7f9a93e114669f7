//! That nothing is left behind, and that there is an end to it.
ghost use Rattle.world_laws.specs.Bound.{TurnsAreBounded};
ghost use Rattle.world_laws.specs.Quiet.{QuietMeansEnded, QuietIsRefused};

/// Once nothing is under way and nothing can be taken, each request that was asked of groups has ended. Until then a
/// packet can be brought, or a layer taken, run or settled. And there are only so many steps to that: the steps that
/// bring packets, take layers, run and settle them are at most k * k + 3 for each request of k groups, and 1 for each
/// packet that was repeated. It does nothing: its contract states the laws.
pub fn ending_of_requests()
    ensures quiet_means_ended { QuietMeansEnded }
    ensures quiet_is_refused { QuietIsRefused }
    ensures turns_are_bounded { TurnsAreBounded }
{}
