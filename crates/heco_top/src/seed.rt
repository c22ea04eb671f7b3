ghost use Rattle.std.specs.Prelude.{◌≡◌, ◌&&◌, length, nat_lt, nat_le};
ghost use Rattle.std.specs.Str.{all_ascii_digits};
ghost use Rattle.heco_top.specs.Seeds.{seed_of};

fn are_digits(bytes: &[u8]) -> bool
    ensures { result ≡ all_ascii_digits bytes.now }
{
    let mut rest = bytes;
    while let [byte, after @ ..] = rest {
        if !byte.is_ascii_digit() {
            return false;
        }
        rest = after;
    }
    true
}

fn is_seed_text(bytes: &[u8]) -> bool
    ensures { result ≡ ((nat_lt 0 (length bytes.now) && nat_le (length bytes.now) 20) && all_ascii_digits bytes.now) }
{
    !bytes.is_empty() && bytes.len() <= 20 && are_digits(bytes)
}

/// The seed that the word writes: 1 to 20 digits, and no sign.
pub fn seed_of(word: &str) -> Option<u64>
    ensures { result ≡ seed_of word.now }
{
    if !is_seed_text(word.as_bytes()) {
        return None;
    }
    match word.parse::<u64>() {
        Ok(seed) => Some(seed),
        Err(_) => None,
    }
}
