ghost use Rattle.std.specs.Prelude.{◌≡◌, ◌≤◌, ℕ, List, length};
ghost use lib.IntN.{ℤ};
ghost use Rattle.heco_slots.specs.Messages as message;
ghost use Rattle.heco_scheme.specs.Ciphertexts.{IsCiphertext};
ghost use Rattle.heco_scheme.specs.Gates as gate;
ghost use Rattle.heco_scheme.specs.Noise.{noise};

use crate::{Ct, Gates, linear};

impl Gates {
    /// The negative of each part.
    pub fn neg(&mut self, a: &Ct, out: &mut Ct)
        requires a { IsCiphertext self.old.preset.n a.now }
        requires out { IsCiphertext self.old.preset.n out.old }
        requires count { length out.old ≡ length a.now }
        ensures preset { self.new.preset ≡ self.old.preset }
        ensures ciphertext { IsCiphertext self.old.preset.n out.new }
        ensures count { length out.new ≡ length out.old }
        ensures formula { out.new ≡ gate.negated self.old.preset a.now }
        ensures noise { (s : List ℤ) (m : List ℕ) (E : ℕ) → noise self.old.preset s a.now m ≤ E → noise self.old.preset s out.new (message.opposite self.old.preset m) ≤ E }
    {
        linear::negative(&a.first, &mut out.first);
        linear::negative(&a.second, &mut out.second);
        match &mut out.third {
            Some(third) => linear::negative_third(&a.third, &self.zero, third),
            None => {}
        }
    }
}
