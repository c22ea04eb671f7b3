ghost use Rattle.std.specs.Prelude.{◌≡◌, ◌<◌, ◌≤◌, ◌+◌, ◌*◌, ◌%◌, ◌^◌, ℕ, List, EachIndex, length, slice_index};
ghost use lib.IntN.{ℤ, pos, ◌+ℤ◌, ◌*ℤ◌, neg_ℤ};
ghost use Rattle.heco_ring.specs.Remainders.{Cong, Same};
ghost use Rattle.heco_ring.specs.Ring.{wholes, scale};
ghost use Rattle.heco_transform.specs.Values.{RootTree, Inverses, Values};

use crate::residue::times;
use crate::{Factor, P};

/// x + s y and x - s y.
pub fn forward_butterfly(x: u64, y: u64, s: Factor) -> (u64, u64)
    requires { x < 2 ^ 62 }
    ensures sum { Cong P (pos result.0) (pos x +ℤ pos s *ℤ pos y) }
    ensures difference { Cong P (pos result.1) (pos x +ℤ neg_ℤ (pos s) *ℤ pos y) }
    ensures sum_room { result.0 < x + 2 * P }
    ensures difference_room { result.1 ≤ x + 2 * P }
{
    let z = times(y, s);
    (x + z, x + (2 * P - z))
}

/// The values of a polynomial of four coefficients at the leaves under a node, in place.
#[inline(always)]
pub fn forward_four(a: &mut [u64], node: usize, roots: &[Factor])
    requires long { length a.old ≡ 4 }
    requires node { 0 < node }
    requires inside { 4 * node + 4 ≤ 2 * length roots.now }
    requires tree { RootTree P roots.now }
    requires below { EachIndex a.old (λ k. slice_index a.old k < 17 * P) }
    ensures values { Values P 4 node roots.now (wholes a.old) a.new }
    ensures below { EachIndex a.new (λ k. slice_index a.new k < 21 * P) }
{
    let (b0, b2) = forward_butterfly(a[0], a[2], roots[node]);
    let (b1, b3) = forward_butterfly(a[1], a[3], roots[node]);
    let (c0, c1) = forward_butterfly(b0, b1, roots[2 * node]);
    let (c2, c3) = forward_butterfly(b2, b3, roots[2 * node + 1]);
    a[0] = c0;
    a[1] = c1;
    a[2] = c2;
    a[3] = c3;
}

/// x + y and s (x - y). The bound is a multiple of P above both.
pub fn inverse_butterfly(x: u64, y: u64, s: Factor, bound: u64) -> (u64, u64)
    requires multiple { bound % P ≡ 0 }
    requires small { bound ≤ 2 ^ 63 }
    requires x { x < bound }
    requires y { y < bound }
    ensures sum { result.0 ≡ x + y }
    ensures difference { Cong P (pos result.1) (pos s *ℤ (pos x +ℤ neg_ℤ (pos y))) }
    ensures room { result.1 < 2 * P }
{
    let z = times(x + (bound - y), s);
    (x + y, z)
}

/// Four times the polynomial whose values at the leaves under a node are given, in place.
#[inline(always)]
pub fn inverse_four(a: &mut [u64], node: usize, inverses: &[Factor])
    requires long { length a.old ≡ 4 }
    requires node { 0 < node }
    requires inside { 4 * node + 4 ≤ 2 * length inverses.now }
    requires below { EachIndex a.old (λ k. slice_index a.old k < 2 * P) }
    ensures value { (t : List ℕ) (b : List ℤ) → RootTree P t → Inverses P t inverses.now → Values P 4 node t b a.old → Same P 4 (wholes a.new) (scale 4 (pos 4) b) }
    ensures below { EachIndex a.new (λ k. slice_index a.new k < 8 * P) }
{
    let (c0, c1) = inverse_butterfly(a[0], a[1], inverses[2 * node], 2 * P);
    let (c2, c3) = inverse_butterfly(a[2], a[3], inverses[2 * node + 1], 2 * P);
    let (b0, b2) = inverse_butterfly(c0, c2, inverses[node], 4 * P);
    let (b1, b3) = inverse_butterfly(c1, c3, inverses[node], 4 * P);
    a[0] = b0;
    a[1] = b1;
    a[2] = b2;
    a[3] = b3;
}
