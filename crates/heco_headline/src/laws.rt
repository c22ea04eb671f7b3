ghost use Rattle.heco_headline.specs.Exec.{ExecPrintsThePlainText};
ghost use Rattle.heco_headline.specs.Headline.{GoodCircuitsPrintThePlainText};
ghost use Rattle.heco_headline.specs.Pair.{PairPrintsBothPlainTexts, RowsPrintApart};

/// For every good circuit of a source, every text of its inputs, and all material within bounds: the circuit can be run,
/// and what decrypting the result prints is exactly what the source's execution on these values prints.
pub fn good_circuits_print_the_plain_text()
    ensures { GoodCircuitsPrintThePlainText }
{}

/// The same for whatever good circuit was chosen, by its own preset and for material that was judged by the source alone.
pub fn exec_prints_the_plain_text()
    ensures { ExecPrintsThePlainText }
{}

/// The same of two rows of values that are encrypted together: each text that is decrypted is that of the source's
/// execution on the values of its own row.
pub fn pair_prints_both_plain_texts()
    ensures { PairPrintsBothPlainTexts }
{}

/// What is printed of one row is the same for every content of the other.
pub fn rows_print_apart()
    ensures { RowsPrintApart }
{}
