ghost use Rattle.heco_tasks.specs.MadeFiles.{MadeFilesRun};
ghost use Rattle.heco_tasks.specs.MeasuredFiles.{ChainFilesAreReady, DoneIsMeasured, DoneIsWithinBounds, EncryptedFilesAreOfTheChain};

/// Of the files that `keys` and `encrypt` made for a circuit `run` refuses none, so that by the clause `complete` of the
/// top call it is done unless memory runs out or a call fails.
pub fn made_files_run()
    ensures { MadeFilesRun }
{}

/// Of the files of one chain, of material within bounds, `measure` refuses none.
pub fn chain_files_are_ready()
    ensures { ChainFilesAreReady }
{}

/// Where `measure` is done it printed a line for each wire, of what it read; and no noise is above its bound where it read
/// the files of one chain, of material within bounds.
pub fn done_is_measured()
    ensures measured { DoneIsMeasured }
    ensures within { DoneIsWithinBounds }
{}

/// What `encrypt` and `exec` write of one row of values, and `pair` of two, are such files.
pub fn encrypted_files_are_of_the_chain()
    ensures { EncryptedFilesAreOfTheChain }
{}
