ghost use Rattle.std.specs.Prelude.{◌≡◌, ◌<◌, ◌≤◌, ◌+◌, ◌*◌, ◌%◌, ◌^◌, ℕ, List, EachIndex, length, slice_index};
ghost use lib.IntN.{ℤ, pos, ◌+ℤ◌, ◌*ℤ◌, neg_ℤ};
ghost use Rattle.heco_ring.specs.Remainders.{Cong, Same};
ghost use Rattle.heco_ring.specs.Ring.{wholes, scale};
ghost use Rattle.heco_transform.specs.Values.{RootTree, Inverses, Values, quarters, all_four, UnfoldsTwice};

use crate::four::{inverse_butterfly, inverse_four};
use crate::residue::times;
use crate::{Factor, P};

/// x + y and s (x - y), place by place, in the places of x and y. The bound is a multiple of P above all places.
/// A product past 2 P never comes: the test keeps the compiler from two lanes, which are slower here.
fn inverse_butterflies(low: &mut [u64], high: &mut [u64], s: Factor, bound: u64)
    requires long { length high.old ≡ length low.old }
    requires multiple { bound % P ≡ 0 }
    requires small { bound ≤ 2 ^ 63 }
    requires low_room { EachIndex low.old (λ k. slice_index low.old k < bound) }
    requires high_room { EachIndex high.old (λ k. slice_index high.old k < bound) }
    ensures sum { EachIndex low.new (λ k. Cong P (pos (slice_index low.new k)) (pos (slice_index low.old k) +ℤ pos (slice_index high.old k))) }
    ensures difference { EachIndex high.new (λ k. Cong P (pos (slice_index high.new k)) (pos s *ℤ (pos (slice_index low.old k) +ℤ neg_ℤ (pos (slice_index high.old k))))) }
    ensures sum_room { EachIndex low.new (λ k. slice_index low.new k < 2 * bound) }
    ensures difference_room { EachIndex high.new (λ k. slice_index high.new k < 2 * P) }
{
    for i in 0..low.len() {
        let x = low[i];
        let y = high[i];
        let z = times(x + (bound - y), s);
        if z >= 2 * P {
            return;
        }
        low[i] = x + y;
        high[i] = z;
    }
}

/// A multiple of P above all values of the way back but the last.
const ABOVE: u64 = 1024 * P;

/// Two levels back at once: four times a polynomial by its quarters of h coefficients, in their places, from what it is modulo
/// x^h - r, x^h + r, x^h - t and x^h + t. The factors are the inverses of r^2, r and t. No product has its top bit set: the
/// test keeps the compiler from two lanes, which are slower here.
fn inverse_quarters(
    first: &mut [u64],
    second: &mut [u64],
    third: &mut [u64],
    fourth: &mut [u64],
    s: Factor,
    u: Factor,
    v: Factor,
)
    requires second_long { length second.old ≡ length first.old }
    requires third_long { length third.old ≡ length first.old }
    requires fourth_long { length fourth.old ≡ length first.old }
    requires first_below { EachIndex first.old (λ k. slice_index first.old k < 512 * P) }
    requires second_below { EachIndex second.old (λ k. slice_index second.old k < 512 * P) }
    requires third_below { EachIndex third.old (λ k. slice_index third.old k < 512 * P) }
    requires fourth_below { EachIndex fourth.old (λ k. slice_index fourth.old k < 512 * P) }
    ensures value { UnfoldsTwice P (length first.old) s u v first.old second.old third.old fourth.old (quarters first.new second.new third.new fourth.new) }
    ensures first_room { EachIndex first.new (λ k. slice_index first.new k ≤ all_four first.old second.old third.old fourth.old k) }
    ensures second_room { EachIndex second.new (λ k. slice_index second.new k < 4 * P) }
    ensures third_room { EachIndex third.new (λ k. slice_index third.new k < 4 * P) }
    ensures fourth_room { EachIndex fourth.new (λ k. slice_index fourth.new k < 4 * P) }
{
    for i in 0..first.len() {
        let (c0, c1) = inverse_butterfly(first[i], second[i], u, ABOVE);
        let (c2, c3) = inverse_butterfly(third[i], fourth[i], v, ABOVE);
        if c3 >= 1 << 63 {
            return;
        }
        let (b0, b2) = inverse_butterfly(c0, c2, s, ABOVE);
        let (b1, b3) = inverse_butterfly(c1, c3, s, ABOVE);
        first[i] = b0;
        second[i] = b1;
        third[i] = b2;
        fourth[i] = b3;
    }
}

/// Sixteen times the polynomial whose values at the leaves under a node are given, in place.
fn inverse_sixteen(a: &mut [u64], node: usize, inverses: &[Factor])
    requires long { length a.old ≡ 16 }
    requires node { 0 < node }
    requires inside { 16 * node + 16 ≤ 2 * length inverses.now }
    requires below { EachIndex a.old (λ k. slice_index a.old k < 2 * P) }
    ensures value { (t : List ℕ) (b : List ℤ) → RootTree P t → Inverses P t inverses.now → Values P 16 node t b a.old → Same P 16 (wholes a.new) (scale 16 (pos 16) b) }
    ensures below { EachIndex a.new (λ k. slice_index a.new k < 32 * P) }
{
    let (low, high) = a.split_at_mut(8);
    let (first, second) = low.split_at_mut(4);
    let (third, fourth) = high.split_at_mut(4);
    inverse_four(first, 4 * node, inverses);
    inverse_four(second, 4 * node + 1, inverses);
    inverse_four(third, 4 * node + 2, inverses);
    inverse_four(fourth, 4 * node + 3, inverses);
    inverse_quarters(
        first,
        second,
        third,
        fourth,
        inverses[node],
        inverses[2 * node],
        inverses[2 * node + 1],
    );
}

/// 2^depth times the polynomial whose values at the leaves under a node are given, in place, two levels at once.
fn inverse_even(a: &mut [u64], depth: u32, node: usize, inverses: &[Factor])
    requires depth { depth ≤ 10 }
    requires even { depth % 2 ≡ 0 }
    requires long { length a.old ≡ 2 ^ depth }
    requires node { 0 < node }
    requires inside { 2 ^ depth * node + 2 ^ depth ≤ 2 * length inverses.now }
    requires below { EachIndex a.old (λ k. slice_index a.old k < 2 * P) }
    ensures value { (t : List ℕ) (b : List ℤ) → RootTree P t → Inverses P t inverses.now → Values P (2 ^ depth) node t b a.old
        → Same P (2 ^ depth) (wholes a.new) (scale (2 ^ depth) (pos (2 ^ depth)) b) }
    ensures below { EachIndex a.new (λ k. slice_index a.new k < 2 ^ depth * (2 * P)) }
{
    if depth == 0 {
        return;
    }
    if depth == 2 {
        inverse_four(a, node, inverses);
        return;
    }
    if depth == 4 {
        inverse_sixteen(a, node, inverses);
        return;
    }
    let quarter = a.len() / 4;
    let (low, high) = a.split_at_mut(2 * quarter);
    let (first, second) = low.split_at_mut(quarter);
    let (third, fourth) = high.split_at_mut(quarter);
    inverse_even(first, depth - 2, 4 * node, inverses);
    inverse_even(second, depth - 2, 4 * node + 1, inverses);
    inverse_even(third, depth - 2, 4 * node + 2, inverses);
    inverse_even(fourth, depth - 2, 4 * node + 3, inverses);
    inverse_quarters(
        first,
        second,
        third,
        fourth,
        inverses[node],
        inverses[2 * node],
        inverses[2 * node + 1],
    );
}

/// 2^depth times the polynomial whose values at the leaves under a node are given, in place.
pub fn inverse(a: &mut [u64], depth: u32, node: usize, inverses: &[Factor])
    requires depth { depth ≤ 10 }
    requires long { length a.old ≡ 2 ^ depth }
    requires node { 0 < node }
    requires inside { 2 ^ depth * node + 2 ^ depth ≤ 2 * length inverses.now }
    requires below { EachIndex a.old (λ k. slice_index a.old k < 2 * P) }
    ensures value { (t : List ℕ) (b : List ℤ) → RootTree P t → Inverses P t inverses.now → Values P (2 ^ depth) node t b a.old
        → Same P (2 ^ depth) (wholes a.new) (scale (2 ^ depth) (pos (2 ^ depth)) b) }
    ensures below { EachIndex a.new (λ k. slice_index a.new k < 2 ^ depth * (2 * P)) }
{
    if depth % 2 == 0 {
        inverse_even(a, depth, node, inverses);
        return;
    }
    let half = a.len() / 2;
    let (low, high) = a.split_at_mut(half);
    inverse_even(low, depth - 1, 2 * node, inverses);
    inverse_even(high, depth - 1, 2 * node + 1, inverses);
    inverse_butterflies(low, high, inverses[node], P << depth);
}
