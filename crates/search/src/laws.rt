// The law of runs, on the contract of a function.
ghost use Rattle.search.specs.Laws.{RunsAreDetermined};

// Two runs in which the same was called are the same: the promise of searches leaves no choice.
pub fn runs_are_determined()
    ensures { RunsAreDetermined }
{}
