ghost use Rattle.heco_sample_source.specs.Laws.{IsAcceptedText, TwoRowsFit, GivesOneValue};
ghost use Rattle.heco_sample_source.specs.SampleText.{sample_text};

/// The text is a typed source, which is accepted: nothing of it is refused.
pub fn sample_is_accepted()
    ensures { IsAcceptedText sample_text }
{}

/// Two rows of 512 numbers below t fit its inputs, and on rows that fit its execution gives one number.
pub fn sample_gives_one_value()
    ensures fit { TwoRowsFit }
    ensures value { GivesOneValue }
{}
