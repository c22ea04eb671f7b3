ghost use Rattle.std.specs.Prelude.{◌≡◌, ◌<◌, ◌≤◌, All, IfOk, length};
ghost use Rattle.heco_scheme.specs.Ciphertexts.{IsCiphertext};
ghost use Rattle.heco_scheme.specs.Keys.{AreRows};

use heco_bfv::{Ct, Gates, weigher};
use heco_keys::SwitchKey;
use heco_nums::{Memory, Preset};
use heco_poly::Poly;
use heco_slots::SlotTable;
use std::alloc::Global;

/// c at coefficient 0.
pub fn poly(alloc: Global, p: &Preset, c: u64) -> Result<Poly, Memory>
    requires { c < 288230376151711744 }
    ensures { IfOk result (λ a. length a ≡ p.now.n) }
{
    let mut out = Poly::zero(alloc, p)?;
    if out.len() > 0 {
        out.set(0, c);
    }
    Ok(out)
}

/// The ciphertext of these constants.
pub fn constants(alloc: Global, p: &Preset, first: u64, second: u64) -> Result<Ct, Memory>
    requires first { first < 288230376151711744 }
    requires second { second < 288230376151711744 }
    ensures ciphertext { IfOk result (λ c. IsCiphertext p.now.n c) }
    ensures count { IfOk result (λ c. length c ≡ 2) }
{
    let c0 = poly(alloc, p, first)?;
    let c1 = poly(alloc, p, second)?;
    Ok(Ct::of(c0, c1))
}

/// Coefficient 0 of each part, where all others are 0.
pub fn constant(c: &Ct, i: u32) -> Option<u64> {
    if i >= c.parts() {
        return None;
    }
    let (first, rest) = c.part(i).as_slice().split_first()?;
    if rest.iter().all(|x| *x == 0) {
        Some(*first)
    } else {
        None
    }
}

/// a times b, of three parts.
pub fn product(alloc: Global, p: &Preset, a: &Ct, b: &Ct) -> Result<Ct, Memory>
    requires a { IsCiphertext p.now.n a.now }
    requires a_two { length a.now ≡ 2 }
    requires b { IsCiphertext p.now.n b.now }
    requires b_two { length b.now ≡ 2 }
    ensures ciphertext { IfOk result (λ c. IsCiphertext p.now.n c) }
    ensures count { IfOk result (λ c. length c ≡ 3) }
{
    let mut gates = Gates::open(alloc, p)?;
    let mut out = Ct::zero(alloc, p, 3)?;
    gates.mul(a, b, &mut out);
    Ok(out)
}

/// Two parts in place of three.
pub fn relinearised(alloc: Global, p: &Preset, k: &SwitchKey, a: &Ct) -> Result<Ct, Memory>
    requires a { IsCiphertext p.now.n a.now }
    requires three { length a.now ≡ 3 }
    requires key { AreRows p.now.n k.now.rows }
    ensures ciphertext { IfOk result (λ c. IsCiphertext p.now.n c) }
{
    let mut gates = Gates::open(alloc, p)?;
    let mut out = Ct::zero(alloc, p, 2)?;
    gates.relin(k, a, &mut out);
    Ok(out)
}

/// Turned by r slots.
pub fn turned(alloc: Global, p: &Preset, r: u16, k: &SwitchKey, a: &Ct) -> Result<Ct, Memory>
    requires r { r ≤ p.now.slots }
    requires a { IsCiphertext p.now.n a.now }
    requires two { length a.now ≡ 2 }
    requires key { AreRows p.now.n k.now.rows }
    ensures ciphertext { IfOk result (λ c. IsCiphertext p.now.n c) }
{
    let mut gates = Gates::open(alloc, p)?;
    let mut out = Ct::zero(alloc, p, 2)?;
    gates.turn(r, k, a, &mut out);
    Ok(out)
}

/// c times a.
pub fn multiple(alloc: Global, p: &Preset, c: u32, a: &Ct) -> Result<Ct, Memory>
    requires c { c < p.now.t }
    requires a { IsCiphertext p.now.n a.now }
    requires two { length a.now ≡ 2 }
{
    let mut gates = Gates::open(alloc, p)?;
    let mut out = Ct::zero(alloc, p, 2)?;
    gates.scale(c, a, &mut out);
    Ok(out)
}

// The polynomial of the plain vector v.
fn weigher_of(alloc: Global, p: &Preset, v: &[u32]) -> Result<Poly, Memory>
    requires v { length v.now ≡ p.now.slots }
    requires below { All (λ x. x < p.now.t) v.now }
    ensures { IfOk result (λ m. length m ≡ p.now.n) }
{
    let table = SlotTable::build(alloc, p)?;
    weigher(alloc, &table, v)
}

/// a, slot by slot times the plain vector v, in as many parts.
pub fn weighed(alloc: Global, p: &Preset, v: &[u32], a: &Ct) -> Result<Ct, Memory>
    requires v { length v.now ≡ p.now.slots }
    requires below { All (λ x. x < p.now.t) v.now }
    requires a { IsCiphertext p.now.n a.now }
    ensures ciphertext { IfOk result (λ c. IsCiphertext p.now.n c) }
{
    let m = weigher_of(alloc, p, v)?;
    let mut gates = Gates::open(alloc, p)?;
    let mut out = Ct::zero(alloc, p, a.parts())?;
    gates.weigh(&m, a, &mut out);
    Ok(out)
}

/// a less b, where b has three parts.
pub fn difference(alloc: Global, p: &Preset, a: &Ct, b: &Ct) -> Result<Ct, Memory>
    requires a { IsCiphertext p.now.n a.now }
    requires a_two { length a.now ≡ 2 }
    requires b { IsCiphertext p.now.n b.now }
    requires b_three { length b.now ≡ 3 }
{
    let mut gates = Gates::open(alloc, p)?;
    let mut out = Ct::zero(alloc, p, 3)?;
    gates.sub(a, b, &mut out);
    Ok(out)
}
