ghost use Rattle.std.specs.Prelude.{◌≡◌, ◌<◌, ◌^◌, length, replicate};
ghost use Rattle.std.specs.Int.RustNames.{unsigned_abs};
ghost use Rattle.heco_nums.specs.Arithmetic as number;
ghost use Rattle.heco_ring.specs.Remainders.{reduced};
ghost use Rattle.heco_ring.specs.Ring.{wholes, plus, negate, scale, times};
ghost use Rattle.heco_bfv.specs.Parts.{third_part, third_or};

use heco_nums::Preset;
use heco_poly::Poly;

pub fn sum(a: &Poly, b: &Poly, out: &mut Poly)
    requires a { length a.now ≡ length out.old }
    requires b { length b.now ≡ length out.old }
    ensures { let n = length out.old in out.new ≡ reduced (2 ^ 58) n (plus n (wholes a.now) (wholes b.now)) }
{
    out.copy_in(a);
    out.add_in(b);
}

pub fn difference(a: &Poly, b: &Poly, out: &mut Poly)
    requires a { length a.now ≡ length out.old }
    requires b { length b.now ≡ length out.old }
    ensures { let n = length out.old in out.new ≡ reduced (2 ^ 58) n (plus n (wholes a.now) (negate n (wholes b.now))) }
{
    out.copy_in(a);
    out.sub_in(b);
}

pub fn negative(a: &Poly, out: &mut Poly)
    requires a { length a.now ≡ length out.old }
    ensures { let n = length out.old in out.new ≡ reduced (2 ^ 58) n (negate n (wholes a.now)) }
{
    out.copy_in(a);
    out.neg_in();
}

pub fn multiple(a: &Poly, c: i64, out: &mut Poly)
    requires a { length a.now ≡ length out.old }
    requires c { unsigned_abs c < 65537 }
    ensures { let n = length out.old in out.new ≡ reduced (2 ^ 58) n (scale n c (wholes a.now)) }
{
    out.copy_in(a);
    out.scale_in(c);
}

/// A third part, or `zero` where there is none.
pub fn take_third(third: &Option<Poly>, zero: &Poly, out: &mut Poly)
    requires zero { zero.now ≡ replicate (length out.old) 0 }
    requires third { length (third_or (length out.old) third.now) ≡ length out.old }
    ensures { out.new ≡ third_or (length out.old) third.now }
{
    match third {
        Some(c) => out.copy_in(c),
        None => out.copy_in(zero),
    }
}

/// Adds a third part, or `zero` where there is none.
pub fn add_third(third: &Option<Poly>, zero: &Poly, out: &mut Poly)
    requires zero { zero.now ≡ replicate (length out.old) 0 }
    requires third { length (third_or (length out.old) third.now) ≡ length out.old }
    ensures { let n = length out.old in out.new ≡ reduced (2 ^ 58) n (plus n (wholes out.old) (wholes (third_or n third.now))) }
{
    match third {
        Some(c) => out.add_in(c),
        None => out.add_in(zero),
    }
}

/// Takes a third part away, or `zero` where there is none.
pub fn sub_third(third: &Option<Poly>, zero: &Poly, out: &mut Poly)
    requires zero { zero.now ≡ replicate (length out.old) 0 }
    requires third { length (third_or (length out.old) third.now) ≡ length out.old }
    ensures { let n = length out.old in out.new ≡ reduced (2 ^ 58) n (plus n (wholes out.old) (negate n (wholes (third_or n third.now)))) }
{
    match third {
        Some(c) => out.sub_in(c),
        None => out.sub_in(zero),
    }
}

/// The sum of two third parts.
pub fn sum_third(a: &Option<Poly>, b: &Option<Poly>, zero: &Poly, out: &mut Poly)
    requires zero { zero.now ≡ replicate (length out.old) 0 }
    requires a { length (third_or (length out.old) a.now) ≡ length out.old }
    requires b { length (third_or (length out.old) b.now) ≡ length out.old }
    ensures { let n = length out.old in out.new ≡ reduced (2 ^ 58) n (plus n (wholes (third_part a.now)) (wholes (third_part b.now))) }
{
    take_third(a, zero, out);
    add_third(b, zero, out);
}

/// The difference of two third parts.
pub fn difference_third(a: &Option<Poly>, b: &Option<Poly>, zero: &Poly, out: &mut Poly)
    requires zero { zero.now ≡ replicate (length out.old) 0 }
    requires a { length (third_or (length out.old) a.now) ≡ length out.old }
    requires b { length (third_or (length out.old) b.now) ≡ length out.old }
    ensures { let n = length out.old in out.new ≡ reduced (2 ^ 58) n (plus n (wholes (third_part a.now)) (negate n (wholes (third_part b.now)))) }
{
    take_third(a, zero, out);
    sub_third(b, zero, out);
}

/// The negative of a third part.
pub fn negative_third(a: &Option<Poly>, zero: &Poly, out: &mut Poly)
    requires zero { zero.now ≡ replicate (length out.old) 0 }
    requires a { length (third_or (length out.old) a.now) ≡ length out.old }
    ensures { let n = length out.old in out.new ≡ reduced (2 ^ 58) n (negate n (wholes (third_part a.now))) }
{
    take_third(a, zero, out);
    out.neg_in();
}

/// The multiple of a third part.
pub fn multiple_third(a: &Option<Poly>, c: i64, zero: &Poly, out: &mut Poly)
    requires zero { zero.now ≡ replicate (length out.old) 0 }
    requires a { length (third_or (length out.old) a.now) ≡ length out.old }
    requires c { unsigned_abs c < 65537 }
    ensures { let n = length out.old in out.new ≡ reduced (2 ^ 58) n (scale n c (wholes (third_part a.now))) }
{
    take_third(a, zero, out);
    out.scale_in(c);
}

/// The product of m and a third part.
pub fn product_third(m: &Poly, a: &Option<Poly>, zero: &Poly, out: &mut Poly)
    requires m { length m.now ≡ length out.old }
    requires zero { zero.now ≡ replicate (length out.old) 0 }
    requires a { length (third_or (length out.old) a.now) ≡ length out.old }
    ensures { let n = length out.old in out.new ≡ reduced (2 ^ 58) n (times n (wholes m.now) (wholes (third_part a.now))) }
{
    match a {
        Some(c) => Poly::mul_into(m, c, out),
        None => Poly::mul_into(m, zero, out),
    }
}

/// c between -t/2 and t/2.
pub fn factor(p: &Preset, c: u32) -> i64
    requires { c < p.now.t }
    ensures value { result ≡ number.centre_t p.now.t c }
    ensures small { unsigned_abs result < 65537 }
{
    heco_nums::centre_t(p, c)
}

/// c times q / t, as a coefficient.
pub fn raised(p: &Preset, c: u32) -> u64
    requires { c < p.now.t }
    ensures value { result ≡ number.scaled p.now.t c }
    ensures below { result < 2 ^ 58 }
{
    heco_nums::scaled(p, c)
}
