ghost use Rattle.std.specs.Prelude.{◌≡◌, ◌++◌, OnOk};
ghost use Rattle.heco_lists.specs.ListFormat.{bytes_text, words_text};

use heco_fields::{put_i8, put_u64};
use heco_nums::{Bytes, Memory};

/// Puts small numbers, each as one byte in two's complement.
#[tactic(auto, unfolding(crate::specs::ListFormat::bytes_text))]
pub fn put_bytes(out: &mut Bytes, numbers: &[i8]) -> Result<(), Memory>
    ensures { OnOk result (out.new ≡ out.old ++ bytes_text numbers.now) }
{
    for n in numbers {
        put_i8(out, *n)?;
    }
    Ok(())
}

/// Puts words of eight bytes, the high byte of each first.
#[tactic(auto, unfolding(crate::specs::ListFormat::words_text))]
pub fn put_words(out: &mut Bytes, words: &[u64]) -> Result<(), Memory>
    ensures { OnOk result (out.new ≡ out.old ++ words_text words.now) }
{
    for word in words {
        put_u64(out, *word)?;
    }
    Ok(())
}
