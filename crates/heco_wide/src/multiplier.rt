ghost use Rattle.std.specs.Prelude.{◌≡◌, ◌^◌, IfOk, length};
ghost use Rattle.heco_ring.specs.Ring.{plus, times};
ghost use Rattle.heco_scheme.specs.Rounding.{centred, rounded_all};
ghost use Rattle.heco_wide.specs.Limbs.{ImagesFit, RoomFits};

use crate::limbs::LimbImages;
use crate::product::{multiply, multiply_both};
use crate::room::Room;
use crate::round::round_all;
use heco_nums::{Memory, Preset};
use heco_poly::Poly;
use heco_transform::Transform;
use std::alloc::Global;

/// What a product of ciphertexts works with: the images of the limbs of both, and room for the sums.
#[derive(Debug, Drop)]
pub struct Multiplier {
    pub preset: Preset,
    transform: Transform,
    c0: LimbImages,
    c1: LimbImages,
    d0: LimbImages,
    d1: LimbImages,
    room: Room,
    ghost degree: { 2 ^ transform.depth ≡ preset.n },
    ghost c0_fits: { ImagesFit transform.depth c0 },
    ghost c1_fits: { ImagesFit transform.depth c1 },
    ghost d0_fits: { ImagesFit transform.depth d0 },
    ghost d1_fits: { ImagesFit transform.depth d1 },
    ghost room_fits: { RoomFits transform.depth room },
}

impl Multiplier {
    /// All the room; Memory where there is none.
    pub fn open(alloc: Global, p: &Preset) -> Result<Multiplier, Memory>
        ensures { IfOk result (λ t. t.preset ≡ p.now) }
    {
        let transform = Transform::of_preset(alloc, p)?;
        let c0 = LimbImages::open(alloc, &transform)?;
        let c1 = LimbImages::open(alloc, &transform)?;
        let d0 = LimbImages::open(alloc, &transform)?;
        let d1 = LimbImages::open(alloc, &transform)?;
        let room = Room::open(alloc, &transform)?;
        Ok(Multiplier {
            preset: *p,
            transform,
            c0,
            c1,
            d0,
            d1,
            room,
        })
    }

    /// The three parts of the product, each by the images of its limbs, joined and rounded.
    pub fn product(
        &mut self,
        c0: &Poly,
        c1: &Poly,
        d0: &Poly,
        d1: &Poly,
        o0: &mut Poly,
        o1: &mut Poly,
        o2: &mut Poly,
    )
        requires c0 { length c0.now ≡ self.old.preset.n }
        requires c1 { length c1.now ≡ self.old.preset.n }
        requires d0 { length d0.now ≡ self.old.preset.n }
        requires d1 { length d1.now ≡ self.old.preset.n }
        requires o0 { length o0.old ≡ self.old.preset.n }
        requires o1 { length o1.old ≡ self.old.preset.n }
        requires o2 { length o2.old ≡ self.old.preset.n }
        ensures preset { self.new.preset ≡ self.old.preset }
        ensures first { let n = self.old.preset.n in o0.new ≡ rounded_all n self.old.preset.t (times n (centred n c0.now) (centred n d0.now)) }
        ensures second { let n = self.old.preset.n in o1.new
            ≡ rounded_all n self.old.preset.t (plus n (times n (centred n c0.now) (centred n d1.now)) (times n (centred n c1.now) (centred n d0.now))) }
        ensures third { let n = self.old.preset.n in o2.new ≡ rounded_all n self.old.preset.t (times n (centred n c1.now) (centred n d1.now)) }
    {
        let t = self.preset.t;
        let f = &self.transform;
        self.c0.take(f, c0.as_slice(), &mut self.room);
        self.c1.take(f, c1.as_slice(), &mut self.room);
        self.d0.take(f, d0.as_slice(), &mut self.room);
        self.d1.take(f, d1.as_slice(), &mut self.room);
        multiply(f, &self.c0, &self.d0, &mut self.room);
        round_all(t, self.room.wide.as_slice(), o0);
        multiply(f, &self.c1, &self.d1, &mut self.room);
        round_all(t, self.room.wide.as_slice(), o2);
        multiply_both(f, &self.c0, &self.d1, &self.c1, &self.d0, &mut self.room);
        round_all(t, self.room.wide.as_slice(), o1);
    }
}
