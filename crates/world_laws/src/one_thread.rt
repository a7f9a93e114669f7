//! The headline.
ghost use Rattle.world_laws.specs.Headline.{Headline, HoldsInOrderOfExecution};

/// For every list of steps the replies by request and the contents are those of one thread on one map. It does
/// nothing: its contract states the laws.
pub fn headline()
    ensures headline { Headline }
    ensures in_order_of_execution { HoldsInOrderOfExecution }
{}
