ghost use Rattle.std.specs.Prelude.{◌≡◌, ◌<◌, ◌≤◌, ◌*◌, All, length};
ghost use Rattle.heco_ring.specs.Ring.{wholes};
ghost use Rattle.heco_ring.specs.Slots.{value};

use crate::{SlotTable, term};

impl SlotTable {
    ghost use Rattle.heco_slots.specs.Rows.{first_row, second_row, row_of};

    /// m at zeta^step, modulo t. 2n is a power of two.
    fn value_at(&self, m: &[u32], step: usize) -> u32
        requires long { length m.now ≡ self.now.preset.n }
        requires below { All (λ x. x < self.now.preset.t) m.now }
        requires step { step ≤ 2 * self.now.preset.n }
        ensures { result ≡ value self.now.preset.n self.now.preset.t self.now.preset.zeta step (wholes m.now) }
    {
        let last = 2 * self.preset.n as usize - 1;
        let mut sum = 0;
        for k in 0..m.len() {
            let place = k * step & last;
            sum = term::add_term(sum, m[k], self.powers[place]);
        }
        (sum % u64::from(self.preset.t)) as u32
    }

    /// The slots of both rows of the plaintext m: the second is read at the inverse roots.
    pub fn decode_two(&self, m: &[u32], first: &mut [u32], second: &mut [u32])
        requires m { length m.now ≡ self.now.preset.n }
        requires below { All (λ x. x < self.now.preset.t) m.now }
        requires first { length first.old ≡ self.now.preset.slots }
        requires second { length second.old ≡ self.now.preset.slots }
        ensures first { first.new ≡ row_of self.now.preset first_row m.now }
        ensures second { second.new ≡ row_of self.now.preset (second_row self.now.preset) m.now }
    {
        let round = 2 * self.preset.n as usize;
        for j in 0..first.len() {
            let step = self.places[j] as usize;
            first[j] = self.value_at(m, step);
            second[j] = self.value_at(m, round - step);
        }
    }
}
