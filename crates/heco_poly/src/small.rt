ghost use Rattle.std.specs.Prelude.{◌≡◌, ◌^◌, length};
ghost use Rattle.heco_ring.specs.Remainders.{reduced};

use crate::residue;

/// Small whole numbers, by their remainders.
pub fn small(words: &[i8], out: &mut [u64])
    requires { length words.now ≡ length out.old }
    ensures { let n = length out.old in out.new ≡ reduced (2 ^ 58) n words.now }
{
    for i in 0..out.len() {
        out[i] = residue::of_word(words[i]);
    }
}
