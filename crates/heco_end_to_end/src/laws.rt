ghost use Rattle.std.specs.Prelude.{ℕ, List};
ghost use Rattle.heco_circuit.specs.Plans.{Plan as Circuit};
ghost use Rattle.heco_material.specs.KeyLists.{KeyLists};
ghost use Rattle.heco_material.specs.declared.words.EncRow.{EncRow};
ghost use Rattle.heco_nums.specs.declared.preset.Preset.{Preset};
ghost use Rattle.heco_end_to_end.specs.EndToEnd.{IsRunnable, PrintsTheMeaning, ResultsAreCiphertexts, RowsPrintTheMeaning, RunsAreRead};
ghost use Rattle.heco_end_to_end.specs.InARow.{MadeKeysAreRead, PrintsTheMeaningInARow};
ghost use Rattle.heco_end_to_end.specs.Measured.{RunsAreMeasuredWithinBounds};

/// For all material within bounds and any messages, also of two rows of values: what decrypting the result of a valid
/// circuit's run prints of a row is the text of the circuit's meaning for the values of that row.
pub fn rows_print_the_meaning()
    ensures { RowsPrintTheMeaning }
{}

/// For all material within bounds and values that fit: what decrypting the result of a valid circuit's run prints is the
/// text of the circuit's meaning.
pub fn decrypted_runs_print_the_meaning()
    ensures { (p : Preset) (c : Circuit) (k : KeyLists) (material : List EncRow) (rows : List (List ℕ)) → IsRunnable p c k material rows → PrintsTheMeaning p c k material rows }
{}

/// What is made for a valid circuit from material within bounds has files: an evaluation key that can be read, and
/// encrypted inputs and a result that can be read.
pub fn made_files_are_read()
    ensures keys { MadeKeysAreRead }
    ensures runs { RunsAreRead }
{}

/// The result of any run, whatever key and inputs were read, is as many ciphertexts of two parts as outputs have wires.
pub fn results_are_ciphertexts()
    ensures { ResultsAreCiphertexts }
{}

/// Keys, encrypted inputs and a result that are read from the files that were written one after the other print the
/// text of the circuit's meaning too.
pub fn commands_in_a_row_print_the_meaning()
    ensures { PrintsTheMeaningInARow }
{}

/// For all material within bounds and any messages: the encrypted inputs decrypt to them, and the noise that is measured of
/// each wire of a valid circuit's run is at most its written bound.
pub fn measured_runs_keep_to_their_bounds()
    ensures { RunsAreMeasuredWithinBounds }
{}
