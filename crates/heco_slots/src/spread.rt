ghost use Rattle.std.specs.Prelude.{◌≡◌, ◌<◌, ◌≤◌, ◌-◌, ◌*◌, ◌%◌, All, length};

use crate::{SlotTable, term};

impl SlotTable {
    ghost use Rattle.heco_slots.specs.Slots.{spread_at};

    /// The sum of v_j zeta^(step 3^j), modulo t. 2n is a power of two.
    pub(crate) fn spread(&self, v: &[u32], step: usize) -> u32
        requires long { length v.now ≡ self.now.preset.slots }
        requires below { All (λ x. x < self.now.preset.t) v.now }
        requires step { step ≤ 2 * self.now.preset.n }
        ensures value { result ≡ spread_at self.now.preset v.now step }
        ensures small { result ≤ 65536 }
    {
        let last = 2 * self.preset.n as usize - 1;
        let mut sum = 0;
        for j in 0..v.len() {
            let place = step * self.places[j] as usize & last;
            sum = term::add_term(sum, v[j], self.powers[place]);
        }
        (sum % u64::from(self.preset.t)) as u32
    }

    /// -k modulo 2n.
    pub(crate) fn back(&self, k: usize) -> usize
        requires inside { k < self.now.preset.n }
        ensures value { result ≡ (2 * self.now.preset.n - 1) * k % (2 * self.now.preset.n) }
        ensures below { result ≤ 2 * self.now.preset.n }
    {
        let last = 2 * self.preset.n as usize - 1;
        last * k & last
    }

    /// x / n modulo t.
    pub(crate) fn over_n(&self, x: u64) -> u32
        requires small { x ≤ 131074 }
        ensures { result ≡ x * self.now.preset.ninv % self.now.preset.t }
    {
        (x * u64::from(self.preset.ninv) % u64::from(self.preset.t)) as u32
    }
}
