ghost use Rattle.std.specs.Prelude.{◌≡◌, ◌≤◌, ℕ, List, length};
ghost use lib.IntN.{ℤ};
ghost use Rattle.heco_noise.specs.Rows as row;
ghost use Rattle.heco_slots.specs.Messages as message;
ghost use Rattle.heco_scheme.specs.Ciphertexts.{IsCiphertext};
ghost use Rattle.heco_scheme.specs.Gates as gate;
ghost use Rattle.heco_scheme.specs.Noise.{noise};
ghost use Rattle.heco_nums.specs.MaterialBounds.{IsSparse};

use crate::{Ct, Gates};

impl Gates {
    /// The product of two ciphertexts of two parts, which has three.
    pub fn mul(&mut self, a: &Ct, b: &Ct, out: &mut Ct)
        requires a { IsCiphertext self.old.preset.n a.now }
        requires b { IsCiphertext self.old.preset.n b.now }
        requires out { IsCiphertext self.old.preset.n out.old }
        requires a_two { length a.now ≡ 2 }
        requires b_two { length b.now ≡ 2 }
        requires three { length out.old ≡ 3 }
        ensures preset { self.new.preset ≡ self.old.preset }
        ensures ciphertext { IsCiphertext self.old.preset.n out.new }
        ensures count { length out.new ≡ 3 }
        ensures formula { out.new ≡ gate.multiplied self.old.preset a.now b.now }
        ensures noise { (s : List ℤ) (m l : List ℕ) (E F : ℕ) → IsSparse self.old.preset.n self.old.preset.h s → row.IsQuiet E → row.IsQuiet F → noise self.old.preset s a.now m ≤ E
            → noise self.old.preset s b.now l ≤ F → noise self.old.preset s out.new (message.product self.old.preset m l) ≤ row.multiplied self.old.preset.n self.old.preset.t self.old.preset.h E F }
    {
        let _valid = a.first.as_slice();
        let _valid = a.second.as_slice();
        let _valid = b.first.as_slice();
        let _valid = b.second.as_slice();
        match &mut out.third {
            Some(third) => self.tensor.product(
                &a.first,
                &a.second,
                &b.first,
                &b.second,
                &mut out.first,
                &mut out.second,
                third,
            ),
            None => {}
        }
    }
}
