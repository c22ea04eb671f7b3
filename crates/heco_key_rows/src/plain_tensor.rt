//! The product of ciphertexts by a plain program: coefficient by coefficient, in 128 bits that wrap.
ghost use Rattle.std.specs.Prelude.{◌≡◌, ◌<◌, IfOk, length};

use heco_nums::{Memory, Preset};
use heco_poly::Poly;
use heco_wide::Tensor;
use std::alloc::Global;
use std::process::Abort;
use std::test::Fail;

const Q: i128 = 1 << 58;

/// c between -q/2 and q/2.
fn centred(c: u64) -> i128 {
    let c = i128::from(c);
    if c < Q / 2 { c } else { c.wrapping_sub(Q) }
}

/// Coefficient k of the product of a and b over the integers, where x^n is -1.
fn coefficient(a: &[u64], b: &[u64], k: usize) -> i128
    requires same { length b.now ≡ length a.now }
    requires inside { k < length a.now }
{
    let n = a.len();
    let mut sum = 0i128;
    for i in 0..n {
        if i <= k {
            sum = sum.wrapping_add(centred(a[i]).wrapping_mul(centred(b[k - i])));
        } else {
            sum = sum.wrapping_sub(centred(a[i]).wrapping_mul(centred(b[k + (n - i)])));
        }
    }
    sum
}

/// t x / q to the nearest whole number, halves up, modulo q.
fn rounded(t: u32, x: i128) -> u64 {
    let t = i128::from(t);
    let low = t.wrapping_mul(x.rem_euclid(Q)).wrapping_add(Q / 2);
    let whole = t
        .wrapping_mul(x.div_euclid(Q))
        .wrapping_add(low.div_euclid(Q));
    (whole.rem_euclid(Q) as u128 & 0xffff_ffff_ffff_ffff) as u64
}

/// A polynomial whose coefficients look random, after Knuth's linear congruence; from seed 0 they are all -q/2.
fn filled(alloc: Global, p: &Preset, seed: u64) -> Result<Poly, Memory>
    ensures { IfOk result (λ a. length a ≡ p.now.n) }
{
    let mut out = Poly::zero(alloc, p)?;
    fill(&mut out, seed);
    Ok(out)
}

fn fill(out: &mut Poly, seed: u64)
    ensures { length out.new ≡ length out.old }
{
    let mut x = seed;
    for k in 0..out.len() {
        x = x
            .wrapping_mul(6364136223846793005)
            .wrapping_add(1442695040888963407);
        out.set(k, if seed == 0 { 1 << 57 } else { x >> 6 });
    }
}

/// Whether a coefficient of out is not that of a and b, and of c and d too where they count.
fn differs(t: u32, out: &[u64], a: &[u64], b: &[u64], c: &[u64], d: &[u64], both: bool) -> bool
    requires b { length b.now ≡ length a.now }
    requires c { length c.now ≡ length a.now }
    requires d { length d.now ≡ length a.now }
{
    let mut wrong = false;
    for k in 0..a.len() {
        let first = coefficient(a, b, k);
        let second = if both { coefficient(c, d, k) } else { 0 };
        let wanted = rounded(t, first.wrapping_add(second));
        wrong = wrong || out.get(k).copied() != Some(wanted);
    }
    wrong
}

/// The three parts for polynomials of these seeds.
fn parts_agree(rt: &impl Abort, alloc: Global, p: &Preset, seeds: [u64; 4]) -> Result<(), Memory> {
    let [s0, s1, s2, s3] = seeds;
    let c0 = filled(alloc, p, s0)?;
    let c1 = filled(alloc, p, s1)?;
    let d0 = filled(alloc, p, s2)?;
    let d1 = filled(alloc, p, s3)?;
    let mut o0 = Poly::zero(alloc, p)?;
    let mut o1 = Poly::zero(alloc, p)?;
    let mut o2 = Poly::zero(alloc, p)?;
    let mut tensor = Tensor::open(alloc, p)?;
    tensor.product(&c0, &c1, &d0, &d1, &mut o0, &mut o1, &mut o2);
    let (a, b, c, d) = (c0.as_slice(), c1.as_slice(), d0.as_slice(), d1.as_slice());
    assert!(rt; !differs(p.t, o0.as_slice(), a, c, a, c, false));
    assert!(rt; !differs(p.t, o1.as_slice(), a, d, b, c, true));
    assert!(rt; !differs(p.t, o2.as_slice(), b, d, b, d, false));
    Ok(())
}

#[test]
fn the_product_by_limbs_is_that_of_the_plain_program(rt: HostRuntime) -> Result<(), Fail> {
    for id in 1..5 {
        let p = Preset::by_id(id).ok_or("no preset")?;
        parts_agree(&rt, rt.alloc(), &p, [1, 2, 3, 4])?;
        parts_agree(&rt, rt.alloc(), &p, [0, 0, 0, 0])?;
        parts_agree(&rt, rt.alloc(), &p, [0, 5, 6, 0])?;
    }
    Ok(())
}
