ghost use Rattle.std.specs.Prelude.{◌≡◌, length, replicate, IfOk};

use crate::switching::SwitchRoom;
use heco_nums::{Memory, Preset};
use heco_poly::Poly;
use heco_wide::Tensor;
use std::alloc::Global;

/// The gates of one preset, with the room that they need. The gates themselves stand in files of their own.
#[derive(Debug, Drop)]
pub struct Gates {
    pub(crate) preset: Preset,
    pub(crate) zero: Poly,
    pub(crate) constant: Poly,
    pub(crate) turned: Poly,
    pub(crate) tensor: Tensor,
    pub(crate) room: SwitchRoom,
    ghost zeros: { zero ≡ replicate preset.n 0 },
    ghost constant_long: { length constant ≡ preset.n },
    ghost turned_long: { length turned ≡ preset.n },
    ghost one_preset: { tensor.preset ≡ preset },
    ghost room_preset: { room ≡ preset },
}

impl Gates {
    /// All the room; Memory where there is none.
    pub fn open(alloc: Global, p: &Preset) -> Result<Gates, Memory>
        ensures { IfOk result (λ g. g.preset ≡ p.now) }
    {
        let zero = Poly::zero(alloc, p)?;
        let constant = Poly::zero(alloc, p)?;
        let turned = Poly::zero(alloc, p)?;
        let tensor = Tensor::open(alloc, p)?;
        let room = SwitchRoom::open(alloc, p)?;
        Ok(Gates {
            preset: *p,
            zero,
            constant,
            turned,
            tensor,
            room,
        })
    }
}
