ghost use Rattle.std.specs.Prelude.{◌≡◌, ◌+◌, ◌<◌, ◌≤◌, ◌^◌, ℕ, List};
ghost use lib.IntN.{ℤ};
ghost use Rattle.heco_ring.specs.Ring.{plus, times};
ghost use Rattle.heco_transform.specs.Images.{ImageFits, SumFits, IsImageOf, IsSumOf};
ghost use Rattle.heco_wide.specs.Limbs.{Limbs, ImagesFit, AreImages, limb_part};

use crate::limbs::LimbImages;
use heco_transform::{Image, ImageSum, Transform};

/// A sum gains the products of a and d and of b and c.
fn add_crosswise(f: &Transform, sum: &mut ImageSum, a: &Image, b: &Image, c: &Image, d: &Image)
    requires sum { SumFits f.now.depth sum.old }
    requires few { sum.old.count < 900 }
    requires a { ImageFits f.now.depth a.now }
    requires b { ImageFits f.now.depth b.now }
    requires c { ImageFits f.now.depth c.now }
    requires d { ImageFits f.now.depth d.now }
    ensures fits { SumFits f.now.depth sum.new }
    ensures two_more { sum.new.count ≡ sum.old.count + 2 }
    ensures sum { let n = 2 ^ f.now.depth in (s x y z w : List ℤ) → IsSumOf f.now.depth s sum.old → IsImageOf f.now.depth x a.now → IsImageOf f.now.depth y b.now
        → IsImageOf f.now.depth z c.now → IsImageOf f.now.depth w d.now → IsSumOf f.now.depth (plus n s (plus n (times n x w) (times n y z))) sum.new }
{
    f.add_product(sum, a, d);
    f.add_product(sum, b, c);
}

/// A sum gains what stands at the power j of 2^19 in the product of x and y.
pub fn add_part(f: &Transform, j: u32, x: &LimbImages, y: &LimbImages, sum: &mut ImageSum)
    requires sum { SumFits f.now.depth sum.old }
    requires few { sum.old.count < 900 }
    requires x { ImagesFit f.now.depth x.now }
    requires y { ImagesFit f.now.depth y.now }
    ensures fits { SumFits f.now.depth sum.new }
    ensures few { sum.new.count ≤ sum.old.count + 3 }
    ensures sum { let n = 2 ^ f.now.depth in (s : List ℤ) (a b : Limbs) → IsSumOf f.now.depth s sum.old → AreImages f.now.depth a x.now → AreImages f.now.depth b y.now
        → IsSumOf f.now.depth (plus n s (limb_part n j a b)) sum.new }
{
    match j {
        0 => f.add_product(sum, &x.low, &y.low),
        1 => add_crosswise(f, sum, &x.low, &x.middle, &y.low, &y.middle),
        2 => {
            add_crosswise(f, sum, &x.low, &x.high, &y.low, &y.high);
            f.add_product(sum, &x.middle, &y.middle);
        }
        3 => add_crosswise(f, sum, &x.middle, &x.high, &y.middle, &y.high),
        _ => f.add_product(sum, &x.high, &y.high),
    }
}
