ghost use Rattle.std.specs.Prelude.{◌≡◌, ◌≤◌, max, ℕ, List, length};
ghost use lib.IntN.{ℤ};
ghost use Rattle.heco_noise.specs.Rows as row;
ghost use Rattle.heco_slots.specs.Messages as message;
ghost use Rattle.heco_scheme.specs.Ciphertexts.{IsCiphertext};
ghost use Rattle.heco_scheme.specs.Gates as gate;
ghost use Rattle.heco_scheme.specs.Noise.{noise};

use crate::{Ct, Gates, linear};

impl Gates {
    /// The sum, part by part; a missing third part counts as 0.
    pub fn add(&mut self, a: &Ct, b: &Ct, out: &mut Ct)
        requires a { IsCiphertext self.old.preset.n a.now }
        requires b { IsCiphertext self.old.preset.n b.now }
        requires out { IsCiphertext self.old.preset.n out.old }
        requires count { length out.old ≡ max (length a.now) (length b.now) }
        ensures preset { self.new.preset ≡ self.old.preset }
        ensures ciphertext { IsCiphertext self.old.preset.n out.new }
        ensures count { length out.new ≡ length out.old }
        ensures formula { out.new ≡ gate.added self.old.preset a.now b.now }
        ensures noise { (s : List ℤ) (m l : List ℕ) (E F : ℕ) → noise self.old.preset s a.now m ≤ E → noise self.old.preset s b.now l ≤ F
            → noise self.old.preset s out.new (message.sum self.old.preset m l) ≤ row.added E F }
    {
        linear::sum(&a.first, &b.first, &mut out.first);
        linear::sum(&a.second, &b.second, &mut out.second);
        match &mut out.third {
            Some(third) => linear::sum_third(&a.third, &b.third, &self.zero, third),
            None => {}
        }
    }
}
