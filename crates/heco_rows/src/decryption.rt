ghost use Rattle.std.specs.Prelude.{◌≡◌, length};
ghost use Rattle.heco_scheme.specs.Ciphertexts.{IsCiphertext};
ghost use Rattle.heco_scheme.specs.Encryption.{decrypted};
ghost use Rattle.heco_slots.specs.Rows.{first_row, second_row, row_of};

use heco_bfv::{Ct, Scratch, decrypt_poly};
use heco_keys::Secret;
use heco_slots::SlotTable;

// The most coefficients that a message has, of all presets.
const MOST: usize = 1024;

/// The N slots of both rows of the decryption.
#[tactic(auto, using(heco_nums::proofs::PresetFacts::facts))]
pub fn decrypt_two(
    s: &Secret,
    table: &SlotTable,
    c: &Ct,
    first: &mut [u32],
    second: &mut [u32],
    scratch: &mut Scratch,
)
    requires table { table.now.preset ≡ s.now.preset }
    requires c { IsCiphertext s.now.preset.n c.now }
    requires scratch { scratch.old.preset ≡ s.now.preset }
    requires first { length first.old ≡ s.now.preset.slots }
    requires second { length second.old ≡ s.now.preset.slots }
    ensures scratch { scratch.new.preset ≡ scratch.old.preset }
    ensures first { first.new ≡ row_of s.now.preset first_row (decrypted s.now.preset s.now.places c.now) }
    ensures second { second.new ≡ row_of s.now.preset (second_row s.now.preset) (decrypted s.now.preset s.now.places c.now) }
{
    let mut room = [0u32; MOST];
    let message = &mut room[..s.preset().n as usize];
    decrypt_poly(s, c, message, scratch);
    table.decode_two(message, first, second);
}
