ghost use Rattle.heco_exec.specs.Laws.{DistinctAreApart, DoneIsExecuted, ExecutedFilesAreOfOneChain, GivenIsReady};

/// Where `exec` is done on nine file words that differ, all of the headline holds.
pub fn done_is_executed()
    ensures done { DoneIsExecuted }
    ensures apart { DistinctAreApart }
{}

/// Where an accepted source, values of its inputs and material within bounds for it are given, no refusal of `exec` is
/// due.
pub fn given_is_ready()
    ensures { GivenIsReady }
{}

/// What it has written of the circuit, of both keys and of the inputs are files of one chain, so that `measure` prints no
/// noise of them above its bound.
pub fn executed_files_are_of_one_chain()
    ensures { ExecutedFilesAreOfOneChain }
{}
