ghost use Rattle.std.specs.Prelude.{◌≡◌, ◌≤◌, ℕ, List, length};
ghost use lib.IntN.{ℤ};
ghost use Rattle.heco_noise.specs.Rows as row;
ghost use Rattle.heco_scheme.specs.Ciphertexts.{IsCiphertext};
ghost use Rattle.heco_scheme.specs.Gates as gate;
ghost use Rattle.heco_scheme.specs.Keys.{AreRows, IsSwitchKey, square};
ghost use Rattle.heco_scheme.specs.Noise.{noise};

use crate::{Ct, Gates};
use heco_keys::SwitchKey;

impl Gates {
    /// Two parts in place of three, by a switch key from s s.
    pub fn relin(&mut self, k: &SwitchKey, a: &Ct, out: &mut Ct)
        requires a { IsCiphertext self.old.preset.n a.now }
        requires three { length a.now ≡ 3 }
        requires out { IsCiphertext self.old.preset.n out.old }
        requires two { length out.old ≡ 2 }
        requires key { AreRows self.old.preset.n k.now.rows }
        ensures preset { self.new.preset ≡ self.old.preset }
        ensures ciphertext { IsCiphertext self.old.preset.n out.new }
        ensures count { length out.new ≡ 2 }
        ensures formula { out.new ≡ gate.relinearised self.old.preset k.now.rows a.now }
        ensures noise { (s : List ℤ) (m : List ℕ) (E : ℕ) → IsSwitchKey self.old.preset.n self.old.preset.b s (square self.old.preset.n s) k.now.rows → noise self.old.preset s a.now m ≤ E
            → noise self.old.preset s out.new m ≤ row.turned self.old.preset.t self.old.preset.n self.old.preset.b E }
    {
        out.first.copy_in(&a.first);
        out.second.copy_in(&a.second);
        match &a.third {
            Some(third) => self.room.switch(k, third, &mut out.first, &mut out.second),
            None => {}
        }
    }
}
