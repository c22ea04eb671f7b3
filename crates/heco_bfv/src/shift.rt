ghost use Rattle.std.specs.Prelude.{◌≡◌, ◌<◌, ◌≤◌, ℕ, List, length};
ghost use lib.IntN.{ℤ};
ghost use Rattle.heco_noise.specs.Rows as row;
ghost use Rattle.heco_slots.specs.Messages as message;
ghost use Rattle.heco_scheme.specs.Ciphertexts.{IsCiphertext};
ghost use Rattle.heco_scheme.specs.Gates as gate;
ghost use Rattle.heco_scheme.specs.Noise.{noise};

use crate::{Ct, Gates, linear};

impl Gates {
    /// Adds c times q / t to coefficient 0 of part 0: the message gains c in each slot.
    pub fn shift(&mut self, c: u32, a: &Ct, out: &mut Ct)
        requires a { IsCiphertext self.old.preset.n a.now }
        requires out { IsCiphertext self.old.preset.n out.old }
        requires count { length out.old ≡ length a.now }
        requires c { c < self.old.preset.t }
        ensures preset { self.new.preset ≡ self.old.preset }
        ensures ciphertext { IsCiphertext self.old.preset.n out.new }
        ensures count { length out.new ≡ length out.old }
        ensures formula { out.new ≡ gate.shifted self.old.preset c a.now }
        ensures noise { (s : List ℤ) (m : List ℕ) (E : ℕ) → noise self.old.preset s a.now m ≤ E
            → noise self.old.preset s out.new (message.raised self.old.preset c m) ≤ row.shifted self.old.preset.t E }
    {
        self.constant.copy_in(&self.zero);
        self.constant.set(0, linear::raised(&self.preset, c));
        linear::sum(&a.first, &self.constant, &mut out.first);
        linear::sum(&a.second, &self.zero, &mut out.second);
        match &mut out.third {
            Some(third) => linear::sum_third(&a.third, &None, &self.zero, third),
            None => {}
        }
    }
}
