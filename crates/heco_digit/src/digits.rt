ghost use Rattle.std.specs.Prelude.{◌≡◌, ◌+◌, ◌<◌, ◌≤◌, ◌/◌, ◌%◌, ◌^◌, ℕ, length, slice_index};
ghost use Rattle.heco_ring.specs.Ring.{wholes};
ghost use Rattle.heco_scheme.specs.Gates.{digits};

use heco_poly::Poly;
use std::simd::prelude::*;

/// How many coefficients go at once.
const LANES: u32 = 4;

/// Digit i of x in base 4.
fn digit(x: u64, i: u32) -> u64
    requires { i < 29 }
    ensures value { result ≡ x / 4 ^ i % 4 }
    ensures small { result < 4 }
{
    (x >> (2 * i)) & 3
}

/// Digit i in base 4 of each lane.
#[inline(always)]
fn lane_digits(x: u64x4, i: u32) -> u64x4
    requires { i < 29 }
    ensures value { (j : ℕ) → j < 4 → slice_index result j ≡ slice_index x j / 4 ^ i % 4 }
    ensures small { (j : ℕ) → j < 4 → slice_index result j < 4 }
{
    (x >> u64x4::splat(u64::from(2 * i))) & u64x4::splat(3)
}

/// Digit i in base 4 of four coefficients from k on.
#[inline(always)]
fn four_digits(a: &[u64], k: u32, i: u32) -> u64x4
    requires room { k + 4 ≤ length a.now }
    requires i { i < 29 }
    ensures value { (j : ℕ) → j < 4 → slice_index result j ≡ slice_index a.now (k + j) / 4 ^ i % 4 }
    ensures small { (j : ℕ) → j < 4 → slice_index result j < 4 }
{
    lane_digits(u64x4::from_slice(&a[k as usize..]), i)
}

/// Digit i in base 4 of each coefficient: of four at once, and of the rest one by one.
pub fn digits_into(a: &Poly, i: u32, out: &mut Poly)
    requires i { i < 29 }
    requires out { length out.old ≡ length a.now }
    ensures value { wholes out.new ≡ digits (length a.now) a.now i }
    ensures long { length out.new ≡ length out.old }
{
    let fours = a.len() / LANES;
    for four in 0..fours {
        out.set_four(LANES * four, four_digits(a.as_slice(), LANES * four, i));
    }
    for k in LANES * fours..a.len() {
        out.set(k, digit(a.get(k), i));
    }
}

/// The same, coefficient by coefficient: slow and plain.
pub fn digits_plain_into(a: &Poly, i: u32, out: &mut Poly)
    requires i { i < 29 }
    requires out { length out.old ≡ length a.now }
    ensures value { wholes out.new ≡ digits (length a.now) a.now i }
    ensures long { length out.new ≡ length out.old }
{
    for k in 0..a.len() {
        out.set(k, digit(a.get(k), i));
    }
}
