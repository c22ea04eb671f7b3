ghost use Rattle.heco_pair.specs.Laws.{CallsPrintApart, DistinctAreApart, DoneIsPaired, GivenIsReady, PairedFilesAreOfOneChain};

/// Where `pair` is done on ten file words that differ, all of its headline holds, in both rows.
pub fn done_is_paired()
    ensures done { DoneIsPaired }
    ensures apart { DistinctAreApart }
{}

/// Where an accepted source, two texts of its inputs and material within bounds for it are given, no refusal of `pair` is
/// due.
pub fn given_is_ready()
    ensures { GivenIsReady }
{}

/// Two calls that are done and agree in the source and in one text of inputs print the same text for it, whatever the
/// other text is.
pub fn calls_print_apart()
    ensures { CallsPrintApart }
{}

/// What it has written of the circuit, of both keys and of the inputs are files of one chain, so that `measure` prints no
/// noise of them above its bound.
pub fn paired_files_are_of_one_chain()
    ensures { PairedFilesAreOfOneChain }
{}
