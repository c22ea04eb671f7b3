ghost use Rattle.std.specs.Prelude.{◌≡◌, ◌≢◌, ◌-◌, ◌*◌, ◌/◌, ◌%◌, ◌^◌, IfOk};
ghost use Rattle.heco_slots.specs.Tables.{Powers};

use crate::powers;
use heco_nums::{Memory, Preset};
use std::alloc::Global;

/// The powers that slots are read by: those of zeta modulo t, below 2n, and those of 3 modulo 2n, below N.
#[derive(Debug, Drop)]
pub struct SlotTable {
    pub preset: Preset,
    pub(crate) powers: Vec<u32>,
    pub(crate) places: Vec<u32>,
    ghost of_zeta: { Powers preset.zeta preset.t (2 * preset.n) powers.items },
    ghost of_three: { Powers 3 (2 * preset.n) preset.slots places.items },
    pub ghost minus_one: { preset.zeta ^ preset.n % preset.t ≡ preset.t - 1 },
    pub ghost inverse: { preset.n * preset.ninv % preset.t ≡ 1 },
    pub ghost round: { 3 ^ preset.slots % (2 * preset.n) ≡ 1 },
    pub ghost half: { 3 ^ (preset.slots / 2) % (2 * preset.n) ≢ 1 },
}

impl SlotTable {
    /// The tables of a preset.
    pub fn build(alloc: Global, p: &Preset) -> Result<SlotTable, Memory>
        ensures { IfOk result (λ s. s.preset ≡ p.now) }
    {
        let powers = powers::powers(alloc, p.zeta, p.t, 2 * p.n as usize)?;
        let places = powers::powers(alloc, 3, 2 * p.n, p.slots as usize)?;
        Ok(SlotTable {
            preset: *p,
            powers,
            places,
        })
    }
}
