ghost use Rattle.std.specs.Prelude.{◌≡◌, ◌<◌, ◌≤◌, ◌+◌, ◌-◌, ◌*◌, ◌%◌, ◌^◌, ℕ, EachIndex, length, slice_index};
ghost use lib.IntN.{pos, ◌+ℤ◌, ◌*ℤ◌, neg_ℤ};
ghost use Rattle.heco_ring.specs.Remainders.{Cong};
ghost use Rattle.heco_ring.specs.Ring.{wholes};
ghost use Rattle.heco_transform.specs.Values.{RootTree, Values, quarters, FoldedTwice};

use crate::four::{forward_butterfly, forward_four};
use crate::residue::times;
use crate::{Factor, P};

/// x + s y and x - s y, place by place, in the places of x and y. A product past 2 P never comes: the test keeps the
/// compiler from two lanes, which are slower here.
fn forward_butterflies(low: &mut [u64], high: &mut [u64], s: Factor)
    requires long { length high.old ≡ length low.old }
    requires room { EachIndex low.old (λ k. slice_index low.old k < 2 ^ 62) }
    ensures sum { EachIndex low.new (λ k. Cong P (pos (slice_index low.new k)) (pos (slice_index low.old k) +ℤ pos s *ℤ pos (slice_index high.old k))) }
    ensures difference { EachIndex high.new (λ k. Cong P (pos (slice_index high.new k)) (pos (slice_index low.old k) +ℤ neg_ℤ (pos s) *ℤ pos (slice_index high.old k))) }
    ensures sum_room { EachIndex low.new (λ k. slice_index low.new k < slice_index low.old k + 2 * P) }
    ensures difference_room { EachIndex high.new (λ k. slice_index high.new k ≤ slice_index low.old k + 2 * P) }
{
    for i in 0..low.len() {
        let x = low[i];
        let y = times(high[i], s);
        if y >= 2 * P {
            return;
        }
        low[i] = x + y;
        high[i] = x + (2 * P - y);
    }
}

/// Two levels at once: of a polynomial by its quarters of h coefficients, what it is modulo x^h - u, x^h + u, x^h - v and
/// x^h + v, in their places, where u^2 is s and v^2 is -s. No value has its top bit set: the test keeps the compiler from two
/// lanes, which are slower here.
fn forward_quarters(
    first: &mut [u64],
    second: &mut [u64],
    third: &mut [u64],
    fourth: &mut [u64],
    s: Factor,
    u: Factor,
    v: Factor,
)
    requires second_long { length second.old ≡ length first.old }
    requires third_long { length third.old ≡ length first.old }
    requires fourth_long { length fourth.old ≡ length first.old }
    requires first_small { EachIndex first.old (λ k. slice_index first.old k < 17 * P) }
    requires second_small { EachIndex second.old (λ k. slice_index second.old k < 17 * P) }
    ensures folded { FoldedTwice P (length first.old) s u v (quarters first.old second.old third.old fourth.old) first.new second.new third.new fourth.new }
    ensures first_room { EachIndex first.new (λ k. slice_index first.new k ≤ slice_index first.old k + 4 * P) }
    ensures second_room { EachIndex second.new (λ k. slice_index second.new k ≤ slice_index first.old k + 4 * P) }
    ensures third_room { EachIndex third.new (λ k. slice_index third.new k ≤ slice_index first.old k + 4 * P) }
    ensures fourth_room { EachIndex fourth.new (λ k. slice_index fourth.new k ≤ slice_index first.old k + 4 * P) }
{
    for i in 0..first.len() {
        let (b0, b2) = forward_butterfly(first[i], third[i], s);
        if b0 >= 1 << 63 {
            return;
        }
        let (b1, b3) = forward_butterfly(second[i], fourth[i], s);
        let (c0, c1) = forward_butterfly(b0, b1, u);
        let (c2, c3) = forward_butterfly(b2, b3, v);
        first[i] = c0;
        second[i] = c1;
        third[i] = c2;
        fourth[i] = c3;
    }
}

/// The values of a polynomial of sixteen coefficients at the leaves under a node, in place.
fn forward_sixteen(a: &mut [u64], node: usize, roots: &[Factor])
    requires long { length a.old ≡ 16 }
    requires node { 0 < node }
    requires inside { 16 * node + 16 ≤ 2 * length roots.now }
    requires tree { RootTree P roots.now }
    requires below { EachIndex a.old (λ k. slice_index a.old k < 13 * P) }
    ensures values { Values P 16 node roots.now (wholes a.old) a.new }
    ensures below { EachIndex a.new (λ k. slice_index a.new k < 21 * P) }
{
    let (low, high) = a.split_at_mut(8);
    let (first, second) = low.split_at_mut(4);
    let (third, fourth) = high.split_at_mut(4);
    forward_quarters(
        first,
        second,
        third,
        fourth,
        roots[node],
        roots[2 * node],
        roots[2 * node + 1],
    );
    forward_four(first, 4 * node, roots);
    forward_four(second, 4 * node + 1, roots);
    forward_four(third, 4 * node + 2, roots);
    forward_four(fourth, 4 * node + 3, roots);
}

/// The values of a polynomial at the leaves under a node, in place, two levels at once.
fn forward_even(a: &mut [u64], depth: u32, node: usize, roots: &[Factor])
    requires depth { depth ≤ 10 }
    requires even { depth % 2 ≡ 0 }
    requires long { length a.old ≡ 2 ^ depth }
    requires node { 0 < node }
    requires inside { 2 ^ depth * node + 2 ^ depth ≤ 2 * length roots.now }
    requires tree { RootTree P roots.now }
    requires below { EachIndex a.old (λ k. slice_index a.old k < (21 - 2 * depth) * P) }
    ensures values { Values P (2 ^ depth) node roots.now (wholes a.old) a.new }
    ensures below { EachIndex a.new (λ k. slice_index a.new k < 21 * P) }
{
    if depth == 0 {
        return;
    }
    if depth == 2 {
        forward_four(a, node, roots);
        return;
    }
    if depth == 4 {
        forward_sixteen(a, node, roots);
        return;
    }
    let quarter = a.len() / 4;
    let (low, high) = a.split_at_mut(2 * quarter);
    let (first, second) = low.split_at_mut(quarter);
    let (third, fourth) = high.split_at_mut(quarter);
    forward_quarters(
        first,
        second,
        third,
        fourth,
        roots[node],
        roots[2 * node],
        roots[2 * node + 1],
    );
    forward_even(first, depth - 2, 4 * node, roots);
    forward_even(second, depth - 2, 4 * node + 1, roots);
    forward_even(third, depth - 2, 4 * node + 2, roots);
    forward_even(fourth, depth - 2, 4 * node + 3, roots);
}

/// The values of a polynomial at the leaves under a node of the tree of roots, in place.
pub fn forward(a: &mut [u64], depth: u32, node: usize, roots: &[Factor])
    requires depth { depth ≤ 10 }
    requires long { length a.old ≡ 2 ^ depth }
    requires node { 0 < node }
    requires inside { 2 ^ depth * node + 2 ^ depth ≤ 2 * length roots.now }
    requires tree { RootTree P roots.now }
    requires below { EachIndex a.old (λ k. slice_index a.old k < (21 - 2 * depth) * P) }
    ensures values { Values P (2 ^ depth) node roots.now (wholes a.old) a.new }
    ensures below { EachIndex a.new (λ k. slice_index a.new k < 21 * P) }
{
    if depth % 2 == 0 {
        forward_even(a, depth, node, roots);
        return;
    }
    let half = a.len() / 2;
    let (low, high) = a.split_at_mut(half);
    forward_butterflies(low, high, roots[node]);
    forward_even(low, depth - 1, 2 * node, roots);
    forward_even(high, depth - 1, 2 * node + 1, roots);
}
