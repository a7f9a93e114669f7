//! Replies to several connections.
ghost use Rattle.answer_laws.specs.Laws.{OneHistory, RealTime};

/// Of any list of steps that leads to a world: each reply whose seat has seen a beginning of it stands there, its Submit among the steps
/// and its outcome in the world; and what ended in that world is what one thread gets on one map, in the order of execution and in
/// that of stamps. It does nothing: its contract states the laws.
pub fn one_history()
    ensures { OneHistory }
{}

/// Who asks once he has seen all that another had seen after its reply has run behind that one, in the order of execution. It does
/// nothing: its contract states the law.
pub fn real_time()
    ensures { RealTime }
{}
