ghost use Rattle.std.specs.Prelude.{◌≡◌, ◌<◌, ◌≤◌, ◌+◌, ◌*◌, ◌^◌, IfOk, EachIndex, length, slice_index};
ghost use Rattle.heco_ring.specs.Ring.{wholes};
ghost use Rattle.heco_transform.specs.declared.factor.TheConstants.{P};

use crate::{Transform, bit_field};
use heco_nums::Memory;
use std::alloc::Global;

/// The image of a polynomial, in words that are not reduced.
#[derive(Debug, Drop)]
pub struct Image {
    pub(crate) words: Vec<u64>,
    ghost below: { EachIndex words.items (λ k. slice_index words.items k < 21 * P) },
}

/// A sum of products of images, and how many there are.
#[derive(Debug, Drop)]
pub struct ImageSum {
    pub(crate) words: Vec<u128>,
    pub count: u32,
    ghost below: { EachIndex words.items (λ k. slice_index words.items k < count * 2 ^ 117 + 1) },
}

impl Transform {
    ghost use Rattle.heco_transform.specs.Images.{ImageFits, SumFits, IsImageOf, bit_fields};

    /// Room for an image; Memory where there is none.
    pub fn new_image(&self, alloc: Global) -> Result<Image, Memory>
        ensures { IfOk result (λ i. ImageFits self.now.depth i) }
    {
        let n = 1usize << self.depth;
        Ok(Image {
            words: vec![in alloc; 0; n]?,
        })
    }

    /// Room for a sum; Memory where there is none.
    pub fn new_sum(&self, alloc: Global) -> Result<ImageSum, Memory>
        ensures { IfOk result (λ s. SumFits self.now.depth s) }
    {
        let n = 1usize << self.depth;
        Ok(ImageSum {
            words: vec![in alloc; 0; n]?,
            count: 0,
        })
    }

    /// The image of the polynomial of some bits of each word.
    pub fn image_of_bits(&self, a: &[u64], shift: u32, bits: u32, out: &mut Image)
        requires long { length a.now ≡ 2 ^ self.now.depth }
        requires out { ImageFits self.now.depth out.old }
        requires shift { shift < 64 }
        requires bits { bits ≤ 52 }
        ensures image { IsImageOf self.now.depth (wholes (bit_fields shift bits a.now)) out.new }
        ensures fits { ImageFits self.now.depth out.new }
    {
        let words = out.words.as_mut_slice();
        bit_field::bit_fields_into(a, shift, bits, words);
        self.forward(words);
    }
}
