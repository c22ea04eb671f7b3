ghost use Rattle.std.specs.Prelude.{◌≡◌, ◌<◌, ◌≤◌, ◌+◌, ◌*◌, ◌%◌, ◌^◌, ℕ, List, EachIndex, length, slice_index};
ghost use lib.IntN.{ℤ, pos, ◌*ℤ◌, nat_abs};
ghost use Rattle.heco_ring.specs.Remainders.{Cong, rem, reduced};
ghost use Rattle.heco_ring.specs.Ring.{at, table, plus, times};

use crate::residue::times;
use crate::{Factor, Image, ImageSum, P, Transform, inverse};

/// 2^64 modulo P.
const WORD: u64 = 35184372086784;

/// x modulo P, below 2 P.
fn reduce(x: u128) -> u64
    ensures value { Cong P (pos result) (pos x) }
    ensures below { result < 2 * P }
{
    let high = times((x >> 64) as u64, Factor::new(WORD));
    let low = times((x % (1 << 64)) as u64, Factor::new(1));
    let sum = high + low;
    if sum >= 2 * P { sum - 2 * P } else { sum }
}

/// The whole number z below P / 2 in size, as a word that wraps, from a number below 2 P that is z modulo P.
fn centred(x: u64) -> u64
    requires { x < 2 * P }
    ensures { (z : ℤ) → Cong P (pos x) z → 2 * nat_abs z < P → result ≡ rem (2 ^ 64) z }
{
    let y = if x >= P { x - P } else { x };
    if y > P / 2 { y.wrapping_sub(P) } else { y }
}

/// Each sum gains the product of the numbers at its place.
fn add_terms(sums: &mut [u128], x: &[u64], y: &[u64])
    requires x_long { length x.now ≡ length sums.old }
    requires y_long { length y.now ≡ length sums.old }
    requires x_small { EachIndex x.now (λ k. slice_index x.now k < 21 * P) }
    requires y_small { EachIndex y.now (λ k. slice_index y.now k < 21 * P) }
    requires room { EachIndex sums.old (λ k. slice_index sums.old k < 2 ^ 127) }
    ensures value { EachIndex sums.new (λ k. slice_index sums.new k ≡ slice_index sums.old k + slice_index x.now k * slice_index y.now k) }
{
    for i in 0..sums.len() {
        sums[i] += u128::from(x[i]) * u128::from(y[i]);
    }
}

/// Each sum becomes 0.
fn zero_all(sums: &mut [u128])
    ensures { EachIndex sums.new (λ k. slice_index sums.new k ≡ 0) }
{
    for x in sums.iter_mut() {
        *x = 0;
    }
}

/// The sums modulo P, below 2 P.
pub fn reduce_all(sums: &[u128], out: &mut [u64])
    requires { length out.old ≡ length sums.now }
    ensures value { EachIndex out.new (λ k. Cong P (pos (slice_index out.new k)) (pos (slice_index sums.now k))) }
    ensures below { EachIndex out.new (λ k. slice_index out.new k < 2 * P) }
{
    for i in 0..out.len() {
        out[i] = reduce(sums[i]);
    }
}

/// Each number times c, as the whole number that it stands for.
fn centre_all(out: &mut [u64], c: Factor)
    ensures { EachIndex out.new (λ k. (z : ℤ) → Cong P (pos (slice_index out.old k) *ℤ pos c) z → 2 * nat_abs z < P → slice_index out.new k ≡ rem (2 ^ 64) z) }
{
    for i in 0..out.len() {
        out[i] = centred(times(out[i], c));
    }
}

impl Transform {
    ghost use Rattle.heco_transform.specs.Images.{ImageFits, SumFits, IsImageOf, IsSumOf};

    /// Makes a sum that of no products.
    pub fn clear(&self, sum: &mut ImageSum)
        requires { SumFits self.now.depth sum.old }
        ensures fits { SumFits self.now.depth sum.new }
        ensures none { sum.new.count ≡ 0 }
        ensures zero { IsSumOf self.now.depth (table (2 ^ self.now.depth) (λ k. pos 0)) sum.new }
    {
        zero_all(sum.words.as_mut_slice());
        sum.count = 0;
    }

    /// A sum gains the product of two polynomials, by their images.
    pub fn add_product(&self, sum: &mut ImageSum, x: &Image, y: &Image)
        requires sum { SumFits self.now.depth sum.old }
        requires few { sum.old.count < 1000 }
        requires x { ImageFits self.now.depth x.now }
        requires y { ImageFits self.now.depth y.now }
        ensures fits { SumFits self.now.depth sum.new }
        ensures one_more { sum.new.count ≡ sum.old.count + 1 }
        ensures sum { (s a b : List ℤ) → IsSumOf self.now.depth s sum.old → IsImageOf self.now.depth a x.now → IsImageOf self.now.depth b y.now
            → IsSumOf self.now.depth (plus (2 ^ self.now.depth) s (times (2 ^ self.now.depth) a b)) sum.new }
    {
        add_terms(
            sum.words.as_mut_slice(),
            x.words.as_slice(),
            y.words.as_slice(),
        );
        sum.count += 1;
    }

    /// The polynomial of a sum, in words that wrap, where its coefficients are below P / 2 in size.
    pub fn words_of_sum(&self, sum: &ImageSum, out: &mut [u64])
        requires sum { SumFits self.now.depth sum.now }
        requires out { length out.old ≡ 2 ^ self.now.depth }
        ensures { (a : List ℤ) → IsSumOf self.now.depth a sum.now → ((k : ℕ) → k < 2 ^ self.now.depth → 2 * nat_abs (at a k) < P) → out.new ≡ reduced (2 ^ 64) (2 ^ self.now.depth) a }
    {
        reduce_all(sum.words.as_slice(), out);
        inverse::inverse(out, self.depth, 1, self.inverses.as_slice());
        centre_all(out, self.inverse_of_n);
    }
}
