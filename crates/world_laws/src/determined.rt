//! What a step leaves to nobody's choice.
ghost use Rattle.world_laws.specs.Determined.{StepsDetermine, HistoriesDetermine, RunsAgain, RefusedIsNotAccepted};

/// A list of accepted steps gives one list of answers and one world; a Run that is told the names that a Run answered does
/// what that did; and a step that is refused isn't accepted. It does nothing: its contract states the laws.
pub fn choice_of_steps()
    ensures steps_determine { StepsDetermine }
    ensures histories_determine { HistoriesDetermine }
    ensures runs_again { RunsAgain }
    ensures refused_is_not_accepted { RefusedIsNotAccepted }
{}
