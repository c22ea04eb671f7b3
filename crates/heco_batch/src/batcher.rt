ghost use Rattle.std.specs.Prelude.{◌≡◌, ◌<◌, ◌≤◌};

use heco_nums::Preset;

/// What batching goes by: how many slots a vector has, and the modulus of its numbers.
#[derive(Clone, Copy, Debug)]
pub struct Batcher {
    pub(crate) slots: u16,
    pub(crate) modulus: u32,
    ghost most: { slots ≤ 512 },
    ghost some: { 0 < modulus },
    ghost small: { modulus ≤ 65537 },
}

impl Batcher {
    pub fn of(p: &Preset) -> Batcher
        ensures slots { result.slots ≡ p.now.slots }
        ensures modulus { result.modulus ≡ p.now.t }
    {
        Batcher {
            slots: p.slots as u16,
            modulus: p.t,
        }
    }
}
