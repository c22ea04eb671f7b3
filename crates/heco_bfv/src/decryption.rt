ghost use Rattle.std.specs.Prelude.{◌≡◌, ◌<◌, ◌≤◌, ◌^◌, ℕ, List, All, length, IfOk};
ghost use lib.IntN.{ℤ, pos};
ghost use Rattle.heco_noise.specs.Rows as row;
ghost use Rattle.heco_ring.specs.Remainders.{rem, reduced};
ghost use Rattle.heco_ring.specs.Ring.{wholes};
ghost use Rattle.heco_noise_laws.specs.Noise.{rounded, round_part, phase};
ghost use Rattle.heco_slots.specs.Slots.{decoded};
ghost use Rattle.heco_scheme.specs.Ciphertexts.{part, IsCiphertext};
ghost use Rattle.heco_scheme.specs.Encryption.{decrypted};
ghost use Rattle.heco_scheme.specs.Noise.{noise};

use crate::Ct;
use heco_keys::Secret;
use heco_nums::{Memory, Preset};
use heco_poly::Poly;
use heco_slots::SlotTable;
use std::alloc::Global;

/// The room that decryption needs.
#[derive(Debug, Drop)]
pub struct Scratch {
    preset: Preset,
    phase: Poly,
    once: Poly,
    twice: Poly,
    message: Vec<u32>,
    ghost phase_long: { length phase ≡ preset.n },
    ghost once_long: { length once ≡ preset.n },
    ghost twice_long: { length twice ≡ preset.n },
    ghost message_long: { length message.items ≡ preset.n },
}

impl Scratch {
    /// All the room; Memory where there is none.
    pub fn open(alloc: Global, p: &Preset) -> Result<Scratch, Memory>
        ensures { IfOk result (λ s. s.preset ≡ p.now) }
    {
        let phase = Poly::zero(alloc, p)?;
        let once = Poly::zero(alloc, p)?;
        let twice = Poly::zero(alloc, p)?;
        let message = vec![in alloc; 0; p.n as usize]?;
        Ok(Scratch {
            preset: *p,
            phase,
            once,
            twice,
            message,
        })
    }
}

/// c0 + c1 s + c2 s s. The products walk only the places of s that are not 0.
fn phase_into(c: &Ct, s: &[i8], out: &mut Poly, once: &mut Poly, twice: &mut Poly)
    requires c { IsCiphertext (length out.old) c.now }
    requires s { length s.now ≡ length out.old }
    requires once { length once.old ≡ length out.old }
    requires twice { length twice.old ≡ length out.old }
    ensures formula { let n = length out.old in out.new ≡ reduced (2 ^ 58) n (phase n s.now (part c.now 0) (part c.now 1) (part c.now 2)) }
    ensures long { length out.new ≡ length out.old }
    ensures once { length once.new ≡ length out.old }
    ensures twice { length twice.new ≡ length out.old }
{
    Poly::mul_sparse_into(s, &c.second, out);
    out.add_in(&c.first);
    match &c.third {
        Some(third) => {
            Poly::mul_sparse_into(s, third, once);
            Poly::mul_sparse_into(s, once, twice);
            out.add_in(twice);
        }
        None => {}
    }
}

/// t z / q to the nearest whole number, halves up, modulo t.
fn round(t: u32, z: u64) -> u32
    requires t_pos { 0 < t }
    requires t_small { t ≤ 65537 }
    requires z_small { z < 2 ^ 58 }
    ensures { result ≡ rem t (rounded (2 ^ 58) t (pos z)) }
{
    let whole = (u128::from(t) * u128::from(z) + (1 << 57)) / (1 << 58);
    (whole as u32) % t
}

/// Each coefficient times t / q, rounded, modulo t.
fn round_all(t: u32, z: &[u64], out: &mut [u32])
    requires long { length out.old ≡ length z.now }
    requires t_pos { 0 < t }
    requires t_small { t ≤ 65537 }
    requires small { All (λ x. x < 2 ^ 58) z.now }
    ensures { let n = length z.now in out.new ≡ reduced t n (round_part n (2 ^ 58) t (wholes z.now)) }
{
    for k in 0..z.len() {
        out[k] = round(t, z[k]);
    }
}

/// The decryption, into out.
fn message_into(
    s: &Secret,
    c: &Ct,
    phase: &mut Poly,
    once: &mut Poly,
    twice: &mut Poly,
    out: &mut [u32],
)
    requires c { IsCiphertext s.now.preset.n c.now }
    requires phase { length phase.old ≡ s.now.preset.n }
    requires once { length once.old ≡ s.now.preset.n }
    requires twice { length twice.old ≡ s.now.preset.n }
    requires out { length out.old ≡ s.now.preset.n }
    ensures formula { out.new ≡ decrypted s.now.preset s.now.places c.now }
    ensures phase { length phase.new ≡ s.now.preset.n }
    ensures once { length once.new ≡ s.now.preset.n }
    ensures twice { length twice.new ≡ s.now.preset.n }
{
    phase_into(c, s.as_slice(), phase, once, twice);
    round_all(s.preset().t, phase.as_slice(), out);
}

/// The n coefficients: the phase, each coefficient times t / q and rounded.
pub fn decrypt_poly(s: &Secret, c: &Ct, out: &mut [u32], scratch: &mut Scratch)
    requires c { IsCiphertext s.now.preset.n c.now }
    requires scratch { scratch.old.preset ≡ s.now.preset }
    requires out { length out.old ≡ s.now.preset.n }
    ensures scratch { scratch.new.preset ≡ scratch.old.preset }
    ensures formula { out.new ≡ decrypted s.now.preset s.now.places c.now }
    ensures right { (m : List ℕ) (E : ℕ) → row.IsQuiet E → noise s.now.preset s.now.places c.now m ≤ E → out.new ≡ reduced s.now.preset.t s.now.preset.n (wholes m) }
{
    message_into(
        s,
        c,
        &mut scratch.phase,
        &mut scratch.once,
        &mut scratch.twice,
        out,
    );
}

/// The N slots of the first row of the decryption.
pub fn decrypt(s: &Secret, table: &SlotTable, c: &Ct, out: &mut [u32], scratch: &mut Scratch)
    requires table { table.now.preset ≡ s.now.preset }
    requires c { IsCiphertext s.now.preset.n c.now }
    requires scratch { scratch.old.preset ≡ s.now.preset }
    requires out { length out.old ≡ s.now.preset.slots }
    ensures scratch { scratch.new.preset ≡ scratch.old.preset }
    ensures formula { out.new ≡ decoded s.now.preset (decrypted s.now.preset s.now.places c.now) }
    ensures right { (m : List ℕ) (E : ℕ) → row.IsQuiet E → noise s.now.preset s.now.places c.now m ≤ E → out.new ≡ decoded s.now.preset m }
{
    message_into(
        s,
        c,
        &mut scratch.phase,
        &mut scratch.once,
        &mut scratch.twice,
        scratch.message.as_mut_slice(),
    );
    table.decode(scratch.message.as_slice(), out);
}
