ghost use Rattle.std.specs.Prelude.{◌≡◌, ◌<◌, ◌≤◌, List, All, length, IfOk, slice_get, Some};
ghost use lib.IntN.{ℤ};
ghost use Rattle.heco_noise.specs.Rows as row;
ghost use Rattle.heco_material.specs.declared.words.EncRow.{EncRow as Row};
ghost use Rattle.heco_nums.specs.MaterialBounds.{AreErrors, IsSparse};
ghost use Rattle.heco_scheme.specs.Ciphertexts.{IsCiphertext};
ghost use Rattle.heco_scheme.specs.Encryption.{encrypted};
ghost use Rattle.heco_scheme.specs.Keys.{IsPublicKey};
ghost use Rattle.heco_scheme.specs.Noise.{noise};
ghost use Rattle.heco_slots.specs.Rows.{encoded_two};

use heco_bfv::{Ct, encrypt_poly};
use heco_keys::Eval;
use heco_material::EncWords;
use heco_nums::Memory;
use heco_slots::SlotTable;
use std::alloc::Global;

/// The ciphertext of N slots in each row: of the message that encodes both, by row i of the words. Memory where there is
/// none.
pub fn encrypt_two(
    alloc: Global,
    e: &Eval,
    w: &EncWords,
    table: &SlotTable,
    i: u32,
    first: &[u32],
    second: &[u32],
) -> Result<Ct, Memory>
    requires preset { w.now.preset ≡ e.now.preset }
    requires table { table.now.preset ≡ e.now.preset }
    requires row { i < length w.now.rows }
    requires u { (r : Row) → slice_get w.now.rows i ≡ Some r → length r.u ≡ e.now.preset.n }
    requires e1 { (r : Row) → slice_get w.now.rows i ≡ Some r → length r.e1 ≡ e.now.preset.n }
    requires e2 { (r : Row) → slice_get w.now.rows i ≡ Some r → length r.e2 ≡ e.now.preset.n }
    requires first { length first.now ≡ e.now.preset.slots }
    requires first_below { All (λ x. x < e.now.preset.t) first.now }
    requires second { length second.now ≡ e.now.preset.slots }
    requires second_below { All (λ x. x < e.now.preset.t) second.now }
    ensures ciphertext { IfOk result (λ c. IsCiphertext e.now.preset.n c) }
    ensures count { IfOk result (λ c. length c ≡ 2) }
    ensures formula { IfOk result (λ c. (r : Row) → slice_get w.now.rows i ≡ Some r
        → c ≡ encrypted e.now.preset e.now.p0 e.now.p1 r.u r.e1 r.e2 (encoded_two e.now.preset first.now second.now)) }
    ensures noise { IfOk result (λ c. (r : Row) (s : List ℤ) → slice_get w.now.rows i ≡ Some r → IsSparse e.now.preset.n e.now.preset.h s
        → IsPublicKey e.now.preset.n e.now.preset.b s e.now.p0 e.now.p1 → IsSparse e.now.preset.n e.now.preset.h r.u
        → AreErrors e.now.preset.n e.now.preset.b r.e1 → AreErrors e.now.preset.n e.now.preset.b r.e2
        → noise e.now.preset s c (encoded_two e.now.preset first.now second.now) ≤ row.fresh e.now.preset.t e.now.preset.h e.now.preset.b) }
{
    let mut message = vec![in alloc; 0; e.preset().n as usize]?;
    table.encode_two(first, second, message.as_mut_slice());
    encrypt_poly(alloc, e, w, i, message.as_slice())
}
