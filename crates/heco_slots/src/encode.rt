ghost use Rattle.std.specs.Prelude.{◌≡◌, ◌<◌, All, length};

use crate::SlotTable;

impl SlotTable {
    ghost use Rattle.heco_ring.specs.Slots.{encode_at};
    ghost use Rattle.heco_slots.specs.Slots.{encoded};

    /// Coefficient k: (1/n) times the sum of v_j zeta^(-k 3^j), modulo t.
    fn coefficient(&self, v: &[u32], k: usize) -> u32
        requires long { length v.now ≡ self.now.preset.slots }
        requires below { All (λ x. x < self.now.preset.t) v.now }
        requires inside { k < self.now.preset.n }
        ensures { let p = self.now.preset in result ≡ encode_at p.n p.t p.zeta p.ninv p.slots v.now k }
    {
        let sum = self.spread(v, self.back(k));
        self.over_n(u64::from(sum))
    }

    /// The plaintext whose slots are v, into out.
    pub fn encode(&self, v: &[u32], out: &mut [u32])
        requires v { length v.now ≡ self.now.preset.slots }
        requires below { All (λ x. x < self.now.preset.t) v.now }
        requires out { length out.old ≡ self.now.preset.n }
        ensures { out.new ≡ encoded self.now.preset v.now }
    {
        for k in 0..out.len() {
            out[k] = self.coefficient(v, k);
        }
    }
}
