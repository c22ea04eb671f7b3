ghost use Rattle.std.specs.Prelude.{◌≡◌, ◌<◌, ◌≤◌, ◌^◌, ℕ, List, All, length, IfOk, slice_get, Some, [], ◌∷◌};
ghost use lib.IntN.{ℤ};
ghost use Rattle.heco_noise.specs.Rows as row;
ghost use Rattle.heco_ring.specs.Remainders.{reduced};
ghost use Rattle.heco_ring.specs.Ring.{wholes, plus, times};
ghost use Rattle.heco_slots.specs.Slots.{encoded};
ghost use Rattle.heco_nums.specs.MaterialBounds.{AreErrors, IsSparse};
ghost use Rattle.heco_scheme.specs.Ciphertexts.{IsCiphertext};
ghost use Rattle.heco_scheme.specs.Encryption.{encrypted, scaled_all};
ghost use Rattle.heco_scheme.specs.Keys.{IsPublicKey};
ghost use Rattle.heco_scheme.specs.Noise.{noise};
ghost use Rattle.heco_material.specs.declared.words.EncRow.{EncRow as Row};

use crate::{Ct, linear};
use heco_keys::Eval;
use heco_material::{EncRow, EncWords};
use heco_nums::{Memory, Preset};
use heco_poly::Poly;
use heco_slots::SlotTable;
use std::alloc::Global;

/// A part of the public key times u, and an error. The product walks only the places of u that are not 0.
fn masked(key: &Poly, u: &[i8], error: &[i8], words: &mut Poly, out: &mut Poly)
    requires key { length key.now ≡ length out.old }
    requires u { length u.now ≡ length out.old }
    requires error { length error.now ≡ length out.old }
    requires words { length words.old ≡ length out.old }
    ensures value { let n = length out.old in out.new ≡ reduced (2 ^ 58) n (plus n (times n (wholes key.now) u.now) error.now) }
    ensures words { length words.new ≡ length out.old }
    ensures long { length out.new ≡ length out.old }
{
    Poly::mul_sparse_into(u, key, out);
    Poly::small_into(error, words);
    out.add_in(words);
}

/// Adds each coefficient of the message times q / t.
fn add_scaled(p: &Preset, message: &[u32], words: &mut Poly, out: &mut Poly)
    requires message { length message.now ≡ p.now.n }
    requires below { All (λ x. x < p.now.t) message.now }
    requires words { length words.old ≡ p.now.n }
    requires out { length out.old ≡ p.now.n }
    ensures value { out.new ≡ reduced (2 ^ 58) p.now.n (plus p.now.n (wholes out.old) (scaled_all p.now message.now)) }
    ensures words { length words.new ≡ p.now.n }
    ensures long { length out.new ≡ p.now.n }
{
    for k in 0..p.n {
        words.set(k, linear::raised(p, message[k as usize]));
    }
    out.add_in(words);
}

/// Both parts of an encryption of the message.
fn encrypt_into(
    e: &Eval,
    row: &EncRow,
    message: &[u32],
    words: &mut Poly,
    c0: &mut Poly,
    c1: &mut Poly,
)
    requires u { length row.now.u ≡ e.now.preset.n }
    requires e1 { length row.now.e1 ≡ e.now.preset.n }
    requires e2 { length row.now.e2 ≡ e.now.preset.n }
    requires message { length message.now ≡ e.now.preset.n }
    requires below { All (λ x. x < e.now.preset.t) message.now }
    requires words { length words.old ≡ e.now.preset.n }
    requires c0 { length c0.old ≡ e.now.preset.n }
    requires c1 { length c1.old ≡ e.now.preset.n }
    ensures { c0.new ∷ c1.new ∷ [] ≡ encrypted e.now.preset e.now.p0 e.now.p1 row.now.u row.now.e1 row.now.e2 message.now }
{
    let u = row.u.as_slice();
    masked(e.p0(), u, row.e1.as_slice(), words, c0);
    add_scaled(e.preset(), message, words, c0);
    masked(e.p1(), u, row.e2.as_slice(), words, c1);
}

/// The ciphertext of the message m, by row i of the words: p0 u + e1 + the scaled message, and p1 u + e2. Memory where
/// there is none.
pub fn encrypt_poly(alloc: Global, e: &Eval, w: &EncWords, i: u32, m: &[u32]) -> Result<Ct, Memory>
    requires preset { w.now.preset ≡ e.now.preset }
    requires row { i < length w.now.rows }
    requires u { (r : Row) → slice_get w.now.rows i ≡ Some r → length r.u ≡ e.now.preset.n }
    requires e1 { (r : Row) → slice_get w.now.rows i ≡ Some r → length r.e1 ≡ e.now.preset.n }
    requires e2 { (r : Row) → slice_get w.now.rows i ≡ Some r → length r.e2 ≡ e.now.preset.n }
    requires m { length m.now ≡ e.now.preset.n }
    requires below { All (λ x. x < e.now.preset.t) m.now }
    ensures ciphertext { IfOk result (λ c. IsCiphertext e.now.preset.n c) }
    ensures count { IfOk result (λ c. length c ≡ 2) }
    ensures formula { IfOk result (λ c. (r : Row) → slice_get w.now.rows i ≡ Some r → c ≡ encrypted e.now.preset e.now.p0 e.now.p1 r.u r.e1 r.e2 m.now) }
    ensures noise { IfOk result (λ c. (r : Row) (s : List ℤ) → slice_get w.now.rows i ≡ Some r → IsSparse e.now.preset.n e.now.preset.h s
        → IsPublicKey e.now.preset.n e.now.preset.b s e.now.p0 e.now.p1 → IsSparse e.now.preset.n e.now.preset.h r.u → AreErrors e.now.preset.n e.now.preset.b r.e1
        → AreErrors e.now.preset.n e.now.preset.b r.e2 → noise e.now.preset s c m.now ≤ row.fresh e.now.preset.t e.now.preset.h e.now.preset.b) }
{
    let p = e.preset();
    let mut words = Poly::zero(alloc, p)?;
    let mut c0 = Poly::zero(alloc, p)?;
    let mut c1 = Poly::zero(alloc, p)?;
    encrypt_into(e, w.rows.get(i as usize), m, &mut words, &mut c0, &mut c1);
    Ok(Ct::of(c0, c1))
}

/// The ciphertext of N slots: of the message that encodes them. Memory where there is none.
pub fn encrypt(alloc: Global, e: &Eval, w: &EncWords, i: u32, slots: &[u32]) -> Result<Ct, Memory>
    requires preset { w.now.preset ≡ e.now.preset }
    requires row { i < length w.now.rows }
    requires u { (r : Row) → slice_get w.now.rows i ≡ Some r → length r.u ≡ e.now.preset.n }
    requires e1 { (r : Row) → slice_get w.now.rows i ≡ Some r → length r.e1 ≡ e.now.preset.n }
    requires e2 { (r : Row) → slice_get w.now.rows i ≡ Some r → length r.e2 ≡ e.now.preset.n }
    requires slots { length slots.now ≡ e.now.preset.slots }
    requires below { All (λ x. x < e.now.preset.t) slots.now }
    ensures ciphertext { IfOk result (λ c. IsCiphertext e.now.preset.n c) }
    ensures count { IfOk result (λ c. length c ≡ 2) }
    ensures formula { IfOk result (λ c. (r : Row) → slice_get w.now.rows i ≡ Some r → c ≡ encrypted e.now.preset e.now.p0 e.now.p1 r.u r.e1 r.e2 (encoded e.now.preset slots.now)) }
    ensures noise { IfOk result (λ c. (r : Row) (s : List ℤ) → slice_get w.now.rows i ≡ Some r → IsSparse e.now.preset.n e.now.preset.h s
        → IsPublicKey e.now.preset.n e.now.preset.b s e.now.p0 e.now.p1 → IsSparse e.now.preset.n e.now.preset.h r.u → AreErrors e.now.preset.n e.now.preset.b r.e1
        → AreErrors e.now.preset.n e.now.preset.b r.e2 → noise e.now.preset s c (encoded e.now.preset slots.now) ≤ row.fresh e.now.preset.t e.now.preset.h e.now.preset.b) }
{
    let p = e.preset();
    let table = SlotTable::build(alloc, p)?;
    let mut message = vec![in alloc; 0; p.n as usize]?;
    table.encode(slots, message.as_mut_slice());
    encrypt_poly(alloc, e, w, i, message.as_slice())
}
