ghost use Rattle.std.specs.Prelude.{◌≡◌};
ghost use Rattle.heco_jobs.specs.Words.{texts, name_of};

/// The word of this number, or nothing.
pub fn name_of(words: &[String], which: u8) -> &str
    ensures { result.now ≡ name_of (texts words.now) which }
{
    match words.get(which as usize) {
        Some(word) => word.as_str(),
        None => "",
    }
}
