ghost use Rattle.std.specs.Prelude.{◌≡◌, ◌<◌, ◌≤◌, ◌+◌, ◌*◌, ◌^◌, ℕ, List, IfOk, EachIndex, length, slice_index};
ghost use lib.IntN.{ℤ, pos, ◌+ℤ◌, ◌*ℤ◌};
ghost use Rattle.heco_ring.specs.Remainders.{rem, reduced};
ghost use Rattle.heco_ring.specs.Ring.{table, wholes, plus, times};

use crate::{Image, ImageSum, Transform};
use heco_nums::{Memory, Q_MASK};
use std::alloc::Global;

/// The images of the low and the high 29 bits of a polynomial of words below 2^58.
#[derive(Debug, Drop)]
pub struct Halves {
    pub(crate) low: Image,
    pub(crate) high: Image,
}

/// Sums of products by such images.
#[derive(Debug, Drop)]
pub struct HalfSums {
    pub(crate) low: ImageSum,
    pub(crate) high: ImageSum,
    ghost even: { high.count ≡ low.count },
}

/// x + low + 2^29 high modulo 2^58.
fn halves_together(x: u64, low: u64, high: u64) -> u64
    ensures { result ≡ rem (2 ^ 58) (pos x +ℤ pos low +ℤ pos (2 ^ 29) *ℤ pos high) }
{
    x.wrapping_add(low).wrapping_add(high << 29) & Q_MASK
}

/// Each word gains that of low and 2^29 times that of high, modulo 2^58.
fn add_halves(out: &mut [u64], low: &[u64], high: &[u64])
    requires low { length low.now ≡ length out.old }
    requires high { length high.now ≡ length out.old }
    ensures { EachIndex out.new (λ k. slice_index out.new k ≡ rem (2 ^ 58) (pos (slice_index out.old k) +ℤ pos (slice_index low.now k) +ℤ pos (2 ^ 29) *ℤ pos (slice_index high.now k))) }
{
    for i in 0..out.len() {
        out[i] = halves_together(out[i], low[i], high[i]);
    }
}

impl Transform {
    ghost use Rattle.heco_transform.specs.Images.{ImageFits, IsImageOf};
    ghost use Rattle.heco_transform.specs.Halves.{HalvesFit, SumsFit, AreHalves, IsSmall, AreSums};

    /// Room for the images of a polynomial's halves; Memory where there is none.
    pub fn new_halves(&self, alloc: Global) -> Result<Halves, Memory>
        ensures { IfOk result (λ h. HalvesFit self.now.depth h) }
    {
        let low = self.new_image(alloc)?;
        let high = self.new_image(alloc)?;
        Ok(Halves { low, high })
    }

    /// The images of the halves of k.
    pub fn halves_into(&self, k: &[u64], out: &mut Halves)
        requires long { length k.now ≡ 2 ^ self.now.depth }
        requires below { EachIndex k.now (λ i. slice_index k.now i < 2 ^ 58) }
        requires out { HalvesFit self.now.depth out.old }
        ensures fits { HalvesFit self.now.depth out.new }
        ensures halves { AreHalves self.now.depth k.now out.new }
    {
        self.image_of_bits(k, 0, 29, &mut out.low);
        self.image_of_bits(k, 29, 29, &mut out.high);
    }

    /// The sums gain the product of a small polynomial and one of words, by their images.
    pub fn add_row(&self, sums: &mut HalfSums, digit: &Image, row: &Halves)
        requires sums { SumsFit self.now.depth sums.old }
        requires few { sums.old.low.count < 1000 }
        requires digit { ImageFits self.now.depth digit.now }
        requires row { HalvesFit self.now.depth row.now }
        ensures fits { SumsFit self.now.depth sums.new }
        ensures one_more { sums.new.low.count ≡ sums.old.low.count + 1 }
        ensures sums { (S D : List ℤ) (K : List ℕ) → AreSums self.now.depth S sums.old → IsImageOf self.now.depth D digit.now → IsSmall (2 ^ self.now.depth) D
            → AreHalves self.now.depth K row.now → AreSums self.now.depth (plus (2 ^ self.now.depth) S (times (2 ^ self.now.depth) D (wholes K))) sums.new }
    {
        self.add_product(&mut sums.low, digit, &row.low);
        self.add_product(&mut sums.high, digit, &row.high);
    }

    /// Room for sums; Memory where there is none.
    pub fn new_half_sums(&self, alloc: Global) -> Result<HalfSums, Memory>
        ensures { IfOk result (λ s. SumsFit self.now.depth s) }
    {
        let mut low = self.new_sum(alloc)?;
        let mut high = self.new_sum(alloc)?;
        self.clear(&mut low);
        self.clear(&mut high);
        Ok(HalfSums { low, high })
    }

    /// Makes sums those of no products.
    pub fn clear_halves(&self, sums: &mut HalfSums)
        requires { SumsFit self.now.depth sums.old }
        ensures fits { SumsFit self.now.depth sums.new }
        ensures none { sums.new.low.count ≡ 0 }
        ensures zero { AreSums self.now.depth (table (2 ^ self.now.depth) (λ k. pos 0)) sums.new }
    {
        self.clear(&mut sums.low);
        self.clear(&mut sums.high);
    }

    /// out gains the polynomial of the sums, modulo 2^58. The other two slices are room.
    pub fn add_sums_into(&self, sums: &HalfSums, low: &mut [u64], high: &mut [u64], out: &mut [u64])
        requires sums { SumsFit self.now.depth sums.now }
        requires few { sums.now.low.count ≤ 1000 }
        requires low { length low.old ≡ 2 ^ self.now.depth }
        requires high { length high.old ≡ 2 ^ self.now.depth }
        requires out { length out.old ≡ 2 ^ self.now.depth }
        ensures { (S : List ℤ) → AreSums self.now.depth S sums.now → out.new ≡ reduced (2 ^ 58) (2 ^ self.now.depth) (plus (2 ^ self.now.depth) (wholes out.old) S) }
    {
        self.words_of_sum(&sums.low, low);
        self.words_of_sum(&sums.high, high);
        add_halves(out, low, high);
    }
}
