ghost use Rattle.std.specs.Prelude.{◌≡◌, ◌<◌, ◌^◌, All, IfOk, length};
ghost use Rattle.heco_scheme.specs.Rounding.{centred};

use crate::room::Room;
use crate::shift::{high_limbs, shift_all};
use heco_nums::Memory;
use heco_transform::{Image, Transform};
use std::alloc::Global;

/// The images of three limbs in base 2^19: two from 0 to 2^19 - 1, and the highest from -2^19 to 2^19 - 1.
#[derive(Debug, Drop)]
pub struct LimbImages {
    pub low: Image,
    pub middle: Image,
    pub high: Image,
}

impl LimbImages {
    ghost use Rattle.heco_wide.specs.Limbs.{ImagesFit, HasLimbsOf, RoomFits};

    /// Room for the images; Memory where there is none.
    pub fn open(alloc: Global, f: &Transform) -> Result<LimbImages, Memory>
        ensures { IfOk result (λ i. ImagesFit f.now.depth i) }
    {
        let low = f.new_image(alloc)?;
        let middle = f.new_image(alloc)?;
        let high = f.new_image(alloc)?;
        Ok(LimbImages { low, middle, high })
    }

    /// The images of limbs of the centred coefficients.
    pub fn take(&mut self, f: &Transform, c: &[u64], room: &mut Room)
        requires long { length c.now ≡ 2 ^ f.now.depth }
        requires below { All (λ x. x < 2 ^ 58) c.now }
        requires fits { ImagesFit f.now.depth self.old }
        requires room { RoomFits f.now.depth room.old }
        ensures fits { ImagesFit f.now.depth self.new }
        ensures room { RoomFits f.now.depth room.new }
        ensures limbs { HasLimbsOf f.now.depth (centred (2 ^ f.now.depth) c.now) self.new }
    {
        let words = room.words.as_mut_slice();
        let limb = room.limb.as_mut_slice();
        shift_all(c, words);
        high_limbs(words, limb);
        f.image_of_bits(words, 0, 19, &mut self.low);
        f.image_of_bits(words, 19, 19, &mut self.middle);
        f.image_of_integers(limb, &mut self.high);
    }
}
