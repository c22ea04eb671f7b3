ghost use Rattle.std.specs.Prelude.{◌≡◌, ◌<◌, All, length};

use crate::SlotTable;

impl SlotTable {
    ghost use Rattle.heco_slots.specs.Rows.{encoded_two_at, encoded_two};

    /// Coefficient k: (1/n) times the sum of v_j zeta^(-k 3^j) + w_j zeta^(k 3^j), modulo t.
    fn coefficient_two(&self, v: &[u32], w: &[u32], k: usize) -> u32
        requires v { length v.now ≡ self.now.preset.slots }
        requires v_below { All (λ x. x < self.now.preset.t) v.now }
        requires w { length w.now ≡ self.now.preset.slots }
        requires w_below { All (λ x. x < self.now.preset.t) w.now }
        requires inside { k < self.now.preset.n }
        ensures { result ≡ encoded_two_at self.now.preset v.now w.now k }
    {
        let first = self.spread(v, self.back(k));
        let second = self.spread(w, k);
        self.over_n(u64::from(first) + u64::from(second))
    }

    /// The plaintext whose slots are v in the first row and w in the second, into out.
    pub fn encode_two(&self, v: &[u32], w: &[u32], out: &mut [u32])
        requires v { length v.now ≡ self.now.preset.slots }
        requires v_below { All (λ x. x < self.now.preset.t) v.now }
        requires w { length w.now ≡ self.now.preset.slots }
        requires w_below { All (λ x. x < self.now.preset.t) w.now }
        requires out { length out.old ≡ self.now.preset.n }
        ensures { out.new ≡ encoded_two self.now.preset v.now w.now }
    {
        for k in 0..out.len() {
            out[k] = self.coefficient_two(v, w, k);
        }
    }
}
