ghost use Rattle.std.specs.Prelude.{◌≡◌, ◌<◌, ◌≤◌, ◌-◌, ◌*◌, ◌/◌, ◌^◌, IfOk, EachIndex, length, slice_index};
ghost use Rattle.heco_ring.specs.Ring.{wholes};
ghost use Rattle.heco_transform.specs.Tables.{Layers};
ghost use Rattle.heco_transform.specs.declared.factor.TheConstants.{P};
ghost use Rattle.heco_transform.specs.declared.transform.TheConstants.{PSI, PSI_INVERSE};

use crate::table::layers;
use crate::{Factor, P, forward};
use heco_nums::Memory;
use std::alloc::Global;

/// A root of x^1024 + 1 modulo P.
const PSI: u64 = 193738419460;

/// The inverse of PSI modulo P.
const PSI_INVERSE: u64 = 7216295569200365;

/// The tables of the transform for n = 2^depth coefficients.
#[derive(Debug, Drop)]
pub struct Transform {
    pub depth: u32,
    pub(crate) roots: Vec<Factor>,
    pub(crate) inverses: Vec<Factor>,
    pub(crate) inverse_of_n: Factor,
    pub ghost short: { depth ≤ 10 },
    ghost of_psi: { Layers PSI depth roots.items },
    ghost of_inverse: { Layers PSI_INVERSE depth inverses.items },
    ghost of_n: { inverse_of_n ≡ P - (P - 1) / 2 ^ depth },
}

impl Transform {
    /// The tables for 2^depth coefficients; Memory where there is none.
    pub fn open(alloc: Global, depth: u32) -> Result<Transform, Memory>
        requires { depth ≤ 10 }
        ensures { IfOk result (λ f. f.depth ≡ depth) }
    {
        let roots = layers(alloc, PSI, depth)?;
        let inverses = layers(alloc, PSI_INVERSE, depth)?;
        let inverse_of_n = Factor::new(P - ((P - 1) >> depth));
        Ok(Transform {
            depth,
            roots,
            inverses,
            inverse_of_n,
        })
    }
}

impl Transform {
    ghost use Rattle.heco_transform.specs.Images.{IsImage};

    /// The image of the polynomial a, in its place.
    pub fn forward(&self, a: &mut [u64])
        requires long { length a.old ≡ 2 ^ self.now.depth }
        requires below { EachIndex a.old (λ k. slice_index a.old k < P) }
        ensures image { IsImage self.now.depth (wholes a.old) a.new }
        ensures below { EachIndex a.new (λ k. slice_index a.new k < 21 * P) }
    {
        forward::forward(a, self.depth, 1, self.roots.as_slice());
    }
}
