ghost use Rattle.std.specs.Prelude.{◌≡◌, ◌<◌, ◌*◌, ◌^◌, ℕ, List, IfOk, EachIndex, length, slice_index};
ghost use lib.IntN.{ℤ, pos, ◌+ℤ◌, ◌*ℤ◌};
ghost use Rattle.heco_ring.specs.Remainders.{rem, reduced};
ghost use Rattle.heco_ring.specs.Ring.{table, wholes, plus, times};

use crate::{Image, ImageSum, Transform};
use heco_nums::{Memory, Q_MASK};
use std::alloc::Global;

/// x + 2^20 y + 2^40 z modulo 2^58.
fn limbs_together(x: u64, y: u64, z: u64) -> u64
    ensures { result ≡ rem (2 ^ 58) (pos x +ℤ pos (2 ^ 20) *ℤ pos y +ℤ pos (2 ^ 40) *ℤ pos z) }
{
    x.wrapping_add(y << 20).wrapping_add(z << 40) & Q_MASK
}

/// Each word becomes itself and 2^20 times that of y and 2^40 times that of z, modulo 2^58.
fn add_limbs(out: &mut [u64], y: &[u64], z: &[u64])
    requires y { length y.now ≡ length out.old }
    requires z { length z.now ≡ length out.old }
    ensures { EachIndex out.new (λ k. slice_index out.new k ≡ rem (2 ^ 58) (pos (slice_index out.old k) +ℤ pos (2 ^ 20) *ℤ pos (slice_index y.now k) +ℤ pos (2 ^ 40) *ℤ pos (slice_index z.now k))) }
{
    for i in 0..out.len() {
        out[i] = limbs_together(out[i], y[i], z[i]);
    }
}

/// The images of three limbs of 20 bits.
#[derive(Debug, Drop)]
pub struct Limbs {
    pub(crate) low: Image,
    pub(crate) middle: Image,
    pub(crate) high: Image,
}

impl Transform {
    ghost use Rattle.heco_transform.specs.Images.{SumFits};
    ghost use Rattle.heco_transform.specs.Limbs.{LimbsFit, AreLimbs, HasLimbs};

    /// What the low limbs give: their product.
    fn low_limb(&self, x: &Limbs, y: &Limbs, sum: &mut ImageSum, out: &mut [u64])
        requires x { LimbsFit self.now.depth x.now }
        requires y { LimbsFit self.now.depth y.now }
        requires sum { SumFits self.now.depth sum.old }
        requires out { length out.old ≡ 2 ^ self.now.depth }
        ensures fits { SumFits self.now.depth sum.new }
        ensures value { let n = 2 ^ self.now.depth in (a b c d e f : List ℤ) → HasLimbs self.now.depth a b c x.now → HasLimbs self.now.depth d e f y.now
            → out.new ≡ reduced (2 ^ 64) n (plus n (table n (λ k. pos 0)) (times n a d)) }
    {
        self.clear(sum);
        self.add_product(sum, &x.low, &y.low);
        self.words_of_sum(sum, out);
    }

    /// What stands at 2^20: the products of a low and a middle limb.
    fn middle_limb(&self, x: &Limbs, y: &Limbs, sum: &mut ImageSum, out: &mut [u64])
        requires x { LimbsFit self.now.depth x.now }
        requires y { LimbsFit self.now.depth y.now }
        requires sum { SumFits self.now.depth sum.old }
        requires out { length out.old ≡ 2 ^ self.now.depth }
        ensures fits { SumFits self.now.depth sum.new }
        ensures value { let n = 2 ^ self.now.depth in (a b c d e f : List ℤ) → HasLimbs self.now.depth a b c x.now → HasLimbs self.now.depth d e f y.now
            → out.new ≡ reduced (2 ^ 64) n (plus n (plus n (table n (λ k. pos 0)) (times n a e)) (times n b d)) }
    {
        self.clear(sum);
        self.add_product(sum, &x.low, &y.middle);
        self.add_product(sum, &x.middle, &y.low);
        self.words_of_sum(sum, out);
    }

    /// What stands at 2^40: the products of a low and a high limb, and that of the middle ones.
    fn high_limb(&self, x: &Limbs, y: &Limbs, sum: &mut ImageSum, out: &mut [u64])
        requires x { LimbsFit self.now.depth x.now }
        requires y { LimbsFit self.now.depth y.now }
        requires sum { SumFits self.now.depth sum.old }
        requires out { length out.old ≡ 2 ^ self.now.depth }
        ensures fits { SumFits self.now.depth sum.new }
        ensures value { let n = 2 ^ self.now.depth in (a b c d e f : List ℤ) → HasLimbs self.now.depth a b c x.now → HasLimbs self.now.depth d e f y.now
            → out.new ≡ reduced (2 ^ 64) n (plus n (plus n (plus n (table n (λ k. pos 0)) (times n a f)) (times n b e)) (times n c d)) }
    {
        self.clear(sum);
        self.add_product(sum, &x.low, &y.high);
        self.add_product(sum, &x.middle, &y.middle);
        self.add_product(sum, &x.high, &y.low);
        self.words_of_sum(sum, out);
    }

    /// Room for the images of limbs; Memory where there is none.
    pub fn new_limbs(&self, alloc: Global) -> Result<Limbs, Memory>
        ensures { IfOk result (λ l. LimbsFit self.now.depth l) }
    {
        let low = self.new_image(alloc)?;
        let middle = self.new_image(alloc)?;
        let high = self.new_image(alloc)?;
        Ok(Limbs { low, middle, high })
    }

    /// The images of the limbs of k.
    pub fn limbs_into(&self, k: &[u64], out: &mut Limbs)
        requires long { length k.now ≡ 2 ^ self.now.depth }
        requires below { EachIndex k.now (λ i. slice_index k.now i < 2 ^ 58) }
        requires out { LimbsFit self.now.depth out.old }
        ensures fits { LimbsFit self.now.depth out.new }
        ensures limbs { AreLimbs self.now.depth k.now out.new }
    {
        self.image_of_bits(k, 0, 20, &mut out.low);
        self.image_of_bits(k, 20, 20, &mut out.middle);
        self.image_of_bits(k, 40, 20, &mut out.high);
    }

    /// The product modulo 2^58, by the images of limbs. The sum and the next two slices are room.
    pub fn multiply(
        &self,
        x: &Limbs,
        y: &Limbs,
        sum: &mut ImageSum,
        middle: &mut [u64],
        high: &mut [u64],
        out: &mut [u64],
    )
        requires x { LimbsFit self.now.depth x.now }
        requires y { LimbsFit self.now.depth y.now }
        requires sum { SumFits self.now.depth sum.old }
        requires middle { length middle.old ≡ 2 ^ self.now.depth }
        requires high { length high.old ≡ 2 ^ self.now.depth }
        requires out { length out.old ≡ 2 ^ self.now.depth }
        ensures fits { SumFits self.now.depth sum.new }
        ensures value { let n = 2 ^ self.now.depth in (a b : List ℕ) → AreLimbs self.now.depth a x.now → AreLimbs self.now.depth b y.now
            → out.new ≡ reduced (2 ^ 58) n (times n (wholes a) (wholes b)) }
    {
        self.low_limb(x, y, sum, out);
        self.middle_limb(x, y, sum, middle);
        self.high_limb(x, y, sum, high);
        add_limbs(out, middle, high);
    }
}
