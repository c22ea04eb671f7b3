ghost use Rattle.std.specs.Prelude.{◌≡◌, ◌<◌, ◌*◌, ◌^◌, ℕ, List, EachIndex, length, slice_index};
ghost use lib.IntN.{ℤ, pos, ◌*ℤ◌, nat_abs};
ghost use lib.ListN.{get_or};
ghost use Rattle.heco_ring.specs.Remainders.{Cong};
ghost use Rattle.heco_ring.specs.Ring.{at};

use crate::gather::reduce_all;
use crate::residue::times;
use crate::{Factor, Image, ImageSum, P, Transform, inverse};

/// A whole number modulo P.
fn residue_of(z: i64) -> u64
    ensures value { Cong P (pos result) z }
    ensures below { result < P }
{
    z.rem_euclid(P as i64) as u64
}

/// The whole number z below P / 2 in size, from a number below 2 P that is z modulo P.
fn whole_of(x: u64) -> i64
    requires { x < 2 * P }
    ensures { (z : ℤ) → Cong P (pos x) z → 2 * nat_abs z < P → result ≡ z }
{
    let y = if x >= P { x - P } else { x };
    if y > P / 2 {
        y as i64 - P as i64
    } else {
        y as i64
    }
}

/// Whole numbers modulo P.
fn residues(a: &[i64], out: &mut [u64])
    requires { length out.old ≡ length a.now }
    ensures value { EachIndex out.new (λ k. Cong P (pos (slice_index out.new k)) (at a.now k)) }
    ensures below { EachIndex out.new (λ k. slice_index out.new k < P) }
{
    for i in 0..out.len() {
        out[i] = residue_of(a[i]);
    }
}

/// Each number times c, as the whole number that it stands for.
fn wholes_of(v: &[u64], c: Factor, out: &mut [i64])
    requires { length out.old ≡ length v.now }
    ensures { (k : ℕ) → k < length v.now → (z : ℤ) → Cong P (pos (slice_index v.now k) *ℤ pos c) z → 2 * nat_abs z < P → at out.new k ≡ z }
{
    for i in 0..out.len() {
        out[i] = whole_of(times(v[i], c));
    }
}

impl Transform {
    ghost use Rattle.heco_transform.specs.Images.{ImageFits, SumFits, IsImageOf, IsSumOf};

    /// The image of a polynomial of whole numbers.
    pub fn image_of_integers(&self, a: &[i64], out: &mut Image)
        requires long { length a.now ≡ 2 ^ self.now.depth }
        requires out { ImageFits self.now.depth out.old }
        ensures image { IsImageOf self.now.depth a.now out.new }
        ensures fits { ImageFits self.now.depth out.new }
    {
        let words = out.words.as_mut_slice();
        residues(a, words);
        self.forward(words);
    }

    /// The polynomial of a sum, where its coefficients are below P / 2 in size. The slice of words is room.
    pub fn integers_of_sum(&self, sum: &ImageSum, words: &mut [u64], out: &mut [i64])
        requires sum { SumFits self.now.depth sum.now }
        requires words { length words.old ≡ 2 ^ self.now.depth }
        requires out { length out.old ≡ 2 ^ self.now.depth }
        ensures { (a : List ℤ) → IsSumOf self.now.depth a sum.now → ((k : ℕ) → k < 2 ^ self.now.depth → 2 * nat_abs (at a k) < P) → (k : ℕ) → k < 2 ^ self.now.depth → at out.new k ≡ at a k }
    {
        reduce_all(sum.words.as_slice(), words);
        inverse::inverse(words, self.depth, 1, self.inverses.as_slice());
        wholes_of(words, self.inverse_of_n, out);
    }
}
