ghost use Rattle.std.specs.Prelude.{◌≡◌, IfOk};
ghost use Rattle.heco_texts.specs.inside.Fronts.{digit_back, digit_front};
ghost use Rattle.heco_texts.specs.Numbers.{capped_value, capped_values};

use crate::bytes::{is_digit, without_blanks};
use heco_nums::{List, Memory};
use std::alloc::Global;

// The number of the digits at the front, at most the greatest of 32 bits, and the bytes behind them.
fn first_number(text: &[u8]) -> (u32, &[u8])
    ensures value { result.0 ≡ capped_value (digit_front text.now) }
    ensures back { result.1.now ≡ digit_back text.now }
{
    let mut value = 0u32;
    let mut rest = text;
    while let [c, after @ ..] = rest {
        if !is_digit(*c) {
            return (value, rest);
        }
        value = value
            .saturating_mul(10)
            .saturating_add(u32::from(*c - b'0'));
        rest = after;
    }
    (value, rest)
}

/// The numbers that stand in the text with blanks between, each at most the greatest of 32 bits, or None where it has
/// anything else.
pub fn capped_values(alloc: Global, text: &[u8]) -> Result<Option<List<u32>>, Memory>
    ensures { IfOk result (λ found. found ≡ capped_values text.now) }
{
    let mut values = List::new(alloc);
    let mut rest = without_blanks(text);
    while let [c, ..] = rest {
        if !is_digit(*c) {
            return Ok(None);
        }
        let (value, after) = first_number(rest);
        values.push(value)?;
        rest = without_blanks(after);
    }
    Ok(Some(values))
}
