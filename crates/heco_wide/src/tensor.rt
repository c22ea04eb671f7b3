ghost use Rattle.std.specs.Prelude.{◌≡◌, IfOk, length};
ghost use Rattle.heco_ring.specs.Ring.{plus, times};
ghost use Rattle.heco_scheme.specs.Rounding.{centred, rounded_all};

use crate::multiplier::Multiplier;
use heco_nums::{Memory, Preset};
use heco_poly::Poly;
use std::alloc::Global;
use std::marker::Model;

/// The room that products of ciphertexts of one preset need: contracts see the preset.
#[derive(Debug, Drop)]
pub struct Tensor {
    multiplier: Multiplier,
}

impl Model for Tensor {
    ghost use Rattle.heco_wide.specs.Rooms.{OfPreset};

    ghost Value = { OfPreset };

    ghost view = { λ t. record { preset = t.multiplier.preset } };
}

impl Tensor {
    /// All the room; Memory where there is none.
    pub fn open(alloc: Global, p: &Preset) -> Result<Tensor, Memory>
        ensures { IfOk result (λ t. t.preset ≡ p.now) }
    {
        let multiplier = Multiplier::open(alloc, p)?;
        Ok(Tensor { multiplier })
    }

    /// The three parts of the product of the ciphertexts (c0, c1) and (d0, d1), after Fan and Vercauteren: the products
    /// over the integers of the centred coefficients, times t / q and rounded. It takes no memory.
    pub fn product(
        &mut self,
        c0: &Poly,
        c1: &Poly,
        d0: &Poly,
        d1: &Poly,
        o0: &mut Poly,
        o1: &mut Poly,
        o2: &mut Poly,
    )
        requires c0 { length c0.now ≡ self.old.preset.n }
        requires c1 { length c1.now ≡ self.old.preset.n }
        requires d0 { length d0.now ≡ self.old.preset.n }
        requires d1 { length d1.now ≡ self.old.preset.n }
        requires o0 { length o0.old ≡ self.old.preset.n }
        requires o1 { length o1.old ≡ self.old.preset.n }
        requires o2 { length o2.old ≡ self.old.preset.n }
        ensures preset { self.new.preset ≡ self.old.preset }
        ensures first { let n = self.old.preset.n in o0.new ≡ rounded_all n self.old.preset.t (times n (centred n c0.now) (centred n d0.now)) }
        ensures second { let n = self.old.preset.n in o1.new
            ≡ rounded_all n self.old.preset.t (plus n (times n (centred n c0.now) (centred n d1.now)) (times n (centred n c1.now) (centred n d0.now))) }
        ensures third { let n = self.old.preset.n in o2.new ≡ rounded_all n self.old.preset.t (times n (centred n c1.now) (centred n d1.now)) }
    {
        self.multiplier.product(c0, c1, d0, d1, o0, o1, o2);
    }
}
