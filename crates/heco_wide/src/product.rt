ghost use Rattle.std.specs.Prelude.{◌≡◌, ◌*◌, ◌<◌, ◌≤◌, ◌^◌, ℕ, List};
ghost use lib.IntN.{ℤ, pos, ◌+ℤ◌, ◌*ℤ◌, nat_abs};
ghost use Rattle.heco_ring.specs.Ring.{at, plus, times, times_at};
ghost use Rattle.heco_transform.specs.Images.{IsSumOf};
ghost use Rattle.heco_wide.specs.Limbs.{ImagesFit, HasLimbs, HasLimbsOf, RoomFits};
ghost use Rattle.heco_wide.specs.inside.Wide.{int_at, FitsAll};

use crate::limbs::LimbImages;
use crate::part::add_part;
use crate::room::Room;
use crate::wide::{clear, join_all};
use heco_transform::Transform;

/// The wide numbers become 0.
fn clear_wide(f: &Transform, room: &mut Room)
    requires room { RoomFits f.now.depth room.old }
    ensures room { RoomFits f.now.depth room.new }
    ensures zero { (k : ℕ) → k < 2 ^ f.now.depth → int_at room.new.wide.items k ≡ pos 0 }
{
    clear(room.wide.as_mut_slice());
}

/// The wide numbers become 2^19 times themselves and the coefficients of the sum, below P / 2 in size.
fn join_sum(f: &Transform, room: &mut Room)
    requires room { RoomFits f.now.depth room.old }
    requires small { FitsAll (7 * 2 ^ 105) room.old.wide.items }
    ensures room { RoomFits f.now.depth room.new }
    ensures value { (a : List ℤ) → IsSumOf f.now.depth a room.old.sum → ((k : ℕ) → k < 2 ^ f.now.depth → nat_abs (at a k) ≤ 6 * 2 ^ 48) → (k : ℕ) → k < 2 ^ f.now.depth
        → int_at room.new.wide.items k ≡ int_at room.old.wide.items k *ℤ pos (2 ^ 19) +ℤ at a k }
{
    let words = room.words.as_mut_slice();
    let limb = room.limb.as_mut_slice();
    f.integers_of_sum(&room.sum, words, limb);
    join_all(room.wide.as_mut_slice(), limb);
}

/// The wide numbers become the product over the integers: five parts, the highest first.
pub fn multiply(f: &Transform, x: &LimbImages, y: &LimbImages, room: &mut Room)
    requires room { RoomFits f.now.depth room.old }
    requires x_fits { ImagesFit f.now.depth x.now }
    requires y_fits { ImagesFit f.now.depth y.now }
    requires x { HasLimbs f.now.depth x.now }
    requires y { HasLimbs f.now.depth y.now }
    ensures room { RoomFits f.now.depth room.new }
    ensures value { let n = 2 ^ f.now.depth in (a b : List ℤ) → HasLimbsOf f.now.depth a x.now → HasLimbsOf f.now.depth b y.now → (k : ℕ) → k < n → int_at room.new.wide.items k ≡ times_at n a b k }
{
    clear_wide(f, room);
    for i in 0..5 {
        f.clear(&mut room.sum);
        add_part(f, 4 - i, x, y, &mut room.sum);
        join_sum(f, room);
    }
}

/// The wide numbers become the sum of the products of x and w and of y and z over the integers.
pub fn multiply_both(
    f: &Transform,
    x: &LimbImages,
    w: &LimbImages,
    y: &LimbImages,
    z: &LimbImages,
    room: &mut Room,
)
    requires room { RoomFits f.now.depth room.old }
    requires x_fits { ImagesFit f.now.depth x.now }
    requires w_fits { ImagesFit f.now.depth w.now }
    requires y_fits { ImagesFit f.now.depth y.now }
    requires z_fits { ImagesFit f.now.depth z.now }
    requires x { HasLimbs f.now.depth x.now }
    requires w { HasLimbs f.now.depth w.now }
    requires y { HasLimbs f.now.depth y.now }
    requires z { HasLimbs f.now.depth z.now }
    ensures room { RoomFits f.now.depth room.new }
    ensures value { let n = 2 ^ f.now.depth in (a b c d : List ℤ) → HasLimbsOf f.now.depth a x.now → HasLimbsOf f.now.depth b w.now → HasLimbsOf f.now.depth c y.now
        → HasLimbsOf f.now.depth d z.now → (k : ℕ) → k < n → int_at room.new.wide.items k ≡ times_at n a b k +ℤ times_at n c d k }
{
    clear_wide(f, room);
    for i in 0..5 {
        f.clear(&mut room.sum);
        add_part(f, 4 - i, x, w, &mut room.sum);
        add_part(f, 4 - i, y, z, &mut room.sum);
        join_sum(f, room);
    }
}
