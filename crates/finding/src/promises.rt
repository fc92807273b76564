// What is promised of printing, on the contract of a function.
ghost use Rattle.finding.specs.Promises.{EveryInputHasOneAnswer};

// Every input has just one answer: what `find` promises leaves no choice.
pub fn every_input_has_one_answer()
    ensures { EveryInputHasOneAnswer }
{}
