//! The noise of a ciphertext for a message, as a number.

ghost use Rattle.std.specs.Prelude.{◌≡◌, ◌<◌, ◌≤◌, ◌*◌, ◌^◌, ℕ, List, All, IfOk, length};
ghost use lib.IntN.{ℤ, pos, ◌*ℤ◌, ◌-ℤ◌};
ghost use Rattle.heco_nums.specs.declared.preset.Preset.{Preset};
ghost use Rattle.heco_noise_laws.specs.Noise.{size};
ghost use Rattle.heco_ring.specs.Remainders.{reduced};
ghost use Rattle.heco_ring.specs.Ring.{wholes, times};
ghost use Rattle.heco_scheme.specs.Ciphertexts.{IsCiphertext};
ghost use Rattle.heco_scheme.specs.Noise.{noise, phase_of};
ghost use Rattle.heco_measure.specs.inside.Plaintexts.{IsPlaintext};

use heco_bfv::Ct;
use heco_keys::Secret;
use heco_nums::Memory;
use heco_poly::Poly;
use std::alloc::Global;

/// A polynomial of the secret's preset.
fn room(alloc: Global, s: &Secret) -> Result<Poly, Memory>
    ensures { IfOk result (λ x. length x ≡ s.now.preset.n) }
{
    Poly::zero(alloc, s.preset())
}

/// The third part times s s, modulo q.
fn third_term(alloc: Global, s: &Secret, third: &Poly) -> Result<Poly, Memory>
    requires { length third.now ≡ s.now.preset.n }
    ensures long { IfOk result (λ x. length x ≡ s.now.preset.n) }
    ensures value { let n = s.now.preset.n in IfOk result (λ x. x ≡ reduced (2 ^ 58) n (times n s.now.places (wholes (reduced (2 ^ 58) n (times n s.now.places (wholes third.now)))))) }
{
    let mut once = room(alloc, s)?;
    let mut twice = room(alloc, s)?;
    Poly::mul_sparse_into(s.as_slice(), third, &mut once);
    Poly::mul_sparse_into(s.as_slice(), &once, &mut twice);
    Ok(twice)
}

/// c0 + c1 s + c2 s s, modulo q.
fn phase_of(alloc: Global, s: &Secret, c: &Ct) -> Result<Poly, Memory>
    requires { IsCiphertext s.now.preset.n c.now }
    ensures long { IfOk result (λ z. length z ≡ s.now.preset.n) }
    ensures value { IfOk result (λ z. z ≡ reduced (2 ^ 58) s.now.preset.n (phase_of s.now.preset s.now.places c.now)) }
{
    let mut phase = room(alloc, s)?;
    Poly::mul_sparse_into(s.as_slice(), c.part(1), &mut phase);
    phase.add_in(c.part(0));
    if c.parts() == 2 {
        return Ok(phase);
    }
    let third = third_term(alloc, s, c.part(2))?;
    phase.add_in(&third);
    Ok(phase)
}

/// The least size of t z - q m modulo q t, q being 2^58.
fn gap(t: u32, z: u64, m: u64) -> u128
    requires t_pos { 0 < t }
    requires t_small { t ≤ 65537 }
    requires z { z < 2 ^ 58 }
    requires m { m < t }
    ensures { result ≡ size (2 ^ 58 * t) (pos t *ℤ pos z -ℤ pos (2 ^ 58) *ℤ pos m) }
{
    let t = u128::from(t);
    let whole = (1 << 58) * t;
    let rest = (t * u128::from(z) + (whole - (1 << 58) * u128::from(m))) % whole;
    if rest < whole - rest {
        rest
    } else {
        whole - rest
    }
}

/// The noise for the message m of a ciphertext whose phase is z modulo q: the greatest gap.
fn greatest_gap(t: u32, z: &[u64], m: &[u64]) -> u128
    requires t_pos { 0 < t }
    requires t_small { t ≤ 65537 }
    requires long { length m.now ≡ length z.now }
    requires z { All (λ x. x < 2 ^ 58) z.now }
    requires m { All (λ x. x < t) m.now }
    ensures { (p : Preset) (s : List ℤ) (c : List (List ℕ)) → p.t ≡ t → p.n ≡ length z.now → z.now ≡ reduced (2 ^ 58) p.n (phase_of p s c) → result ≡ noise p s c m.now }
{
    let mut most = 0;
    for k in 0..z.len() {
        let here = gap(t, z[k], m[k]);
        if most < here {
            most = here;
        }
    }
    most
}

/// The noise of the ciphertext for the message, under the secret; Memory where there is none.
pub fn noise(alloc: Global, s: &Secret, c: &Ct, m: &Poly) -> Result<u128, Memory>
    requires c { IsCiphertext s.now.preset.n c.now }
    requires m { IsPlaintext s.now.preset m.now }
    ensures { IfOk result (λ e. e ≡ noise s.now.preset s.now.places c.now m.now) }
{
    let phase = phase_of(alloc, s, c)?;
    Ok(greatest_gap(s.preset().t, phase.as_slice(), m.as_slice()))
}
