ghost use Rattle.std.specs.Prelude.{◌≡◌, ◌<◌, IfOk, length};
ghost use Rattle.heco_scheme.specs.Ciphertexts.{IsCiphertext};
ghost use Rattle.heco_scheme.specs.Keys.{AreRows};

use heco_bfv::Ct;
use heco_digit::digits_into;
use heco_keys::SwitchKey;
use heco_nums::{List, Memory, Preset};
use heco_poly::Poly;
use heco_transform::Transform;
use std::alloc::Global;

/// A polynomial of words from all of 0 to 2^58 - 1.
pub fn drawn(alloc: Global, p: &Preset, seed: u64) -> Result<Poly, Memory>
    ensures { IfOk result (λ a. length a ≡ p.now.n) }
{
    let mut a = Poly::zero(alloc, p)?;
    let mut x = seed;
    for k in 0..a.len() {
        x = x
            .wrapping_mul(6364136223846793005)
            .wrapping_add(1442695040888963407);
        a.set(k, x >> 6);
    }
    Ok(a)
}

/// A key of such polynomials, which keeps no images.
pub fn drawn_key(alloc: Global, p: &Preset) -> Result<SwitchKey, Memory>
    ensures { IfOk result (λ k. AreRows p.now.n k.rows) }
{
    let mut pairs = List::new(alloc);
    for i in 0..29u64 {
        pairs.push((drawn(alloc, p, 2 * i)?, drawn(alloc, p, 2 * i + 1)?))?;
    }
    Ok(SwitchKey::of(pairs))
}

/// The same with its images.
pub fn imaged_key(alloc: Global, p: &Preset) -> Result<SwitchKey, Memory>
    ensures { IfOk result (λ k. AreRows p.now.n k.rows) }
{
    let transform = Transform::of_preset(alloc, p)?;
    drawn_key(alloc, p)?.imaged(alloc, &transform)
}

/// c gains digit i of b times a row: digit by digit, each by a plain product.
fn add_row(
    alloc: Global,
    p: &Preset,
    b: &Poly,
    i: u32,
    row: &Poly,
    c: &mut Poly,
) -> Result<(), Memory>
    requires i { i < 29 }
    requires b { length b.now ≡ p.now.n }
    requires row { length row.now ≡ p.now.n }
    requires c { length c.old ≡ p.now.n }
    ensures { length c.new ≡ length c.old }
{
    let mut digits = Poly::zero(alloc, p)?;
    let mut product = Poly::zero(alloc, p)?;
    digits_into(b, i, &mut digits);
    Poly::mul_plain_into(&digits, row, &mut product);
    c.add_in(&product);
    Ok(())
}

/// Two parts in place of three, the plain way.
pub fn relinearised_plainly(alloc: Global, p: &Preset, k: &SwitchKey, a: &Ct) -> Result<Ct, Memory>
    requires a { IsCiphertext p.now.n a.now }
    requires three { length a.now ≡ 3 }
    requires key { AreRows p.now.n k.now.rows }
    ensures ciphertext { IfOk result (λ c. IsCiphertext p.now.n c) }
    ensures two { IfOk result (λ c. length c ≡ 2) }
{
    let mut c0 = Poly::zero(alloc, p)?;
    let mut c1 = Poly::zero(alloc, p)?;
    c0.copy_in(a.part(0));
    c1.copy_in(a.part(1));
    for i in 0..29 {
        let (left, right) = k.row(i);
        add_row(alloc, p, a.part(2), i, left, &mut c0)?;
        add_row(alloc, p, a.part(2), i, right, &mut c1)?;
    }
    Ok(Ct::of(c0, c1))
}
