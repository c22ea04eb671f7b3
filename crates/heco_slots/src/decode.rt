ghost use Rattle.std.specs.Prelude.{◌≡◌, ◌<◌, All, length};

use crate::{SlotTable, term};

impl SlotTable {
    ghost use Rattle.heco_slots.specs.Slots.{slot_of, decoded};

    /// Slot j: m at zeta^(3^j), modulo t. 2n is a power of two.
    fn slot(&self, m: &[u32], j: usize) -> u32
        requires long { length m.now ≡ self.now.preset.n }
        requires below { All (λ x. x < self.now.preset.t) m.now }
        requires inside { j < self.now.preset.slots }
        ensures { result ≡ slot_of self.now.preset m.now j }
    {
        let last = 2 * self.preset.n as usize - 1;
        let step = self.places[j] as usize;
        let mut sum = 0;
        for k in 0..m.len() {
            let place = k * step & last;
            sum = term::add_term(sum, m[k], self.powers[place]);
        }
        (sum % u64::from(self.preset.t)) as u32
    }

    /// The slots of the plaintext m, into out.
    pub fn decode(&self, m: &[u32], out: &mut [u32])
        requires m { length m.now ≡ self.now.preset.n }
        requires below { All (λ x. x < self.now.preset.t) m.now }
        requires out { length out.old ≡ self.now.preset.slots }
        ensures { out.new ≡ decoded self.now.preset m.now }
    {
        for j in 0..out.len() {
            out[j] = self.slot(m, j);
        }
    }
}
