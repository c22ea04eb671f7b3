ghost use Rattle.std.specs.Prelude.{◌≡◌, ◌*◌, ◌%◌, ◌^◌, ◌<◌, ◌≤◌, ℕ, List, length};
ghost use lib.IntN.{ℤ};
ghost use Rattle.heco_noise.specs.Rows as row;
ghost use Rattle.heco_slots.specs.Messages as message;
ghost use Rattle.heco_scheme.specs.Ciphertexts.{IsCiphertext};
ghost use Rattle.heco_scheme.specs.Gates as gate;
ghost use Rattle.heco_scheme.specs.Keys.{AreRows, IsSwitchKey, turned_secret};
ghost use Rattle.heco_scheme.specs.Noise.{noise};

use crate::{Ct, Gates};
use heco_keys::{SwitchKey, exponent};
use heco_poly::Poly;

impl Gates {
    /// The message turned by r slots, by a switch key from s turned by r slots.
    pub fn turn(&mut self, r: u16, k: &SwitchKey, a: &Ct, out: &mut Ct)
        requires r { r ≤ self.old.preset.slots }
        requires a { IsCiphertext self.old.preset.n a.now }
        requires a_two { length a.now ≡ 2 }
        requires out { IsCiphertext self.old.preset.n out.old }
        requires two { length out.old ≡ 2 }
        requires key { AreRows self.old.preset.n k.now.rows }
        ensures preset { self.new.preset ≡ self.old.preset }
        ensures ciphertext { IsCiphertext self.old.preset.n out.new }
        ensures count { length out.new ≡ 2 }
        ensures formula { out.new ≡ gate.turned self.old.preset r k.now.rows a.now }
        ensures noise { (s : List ℤ) (m : List ℕ) (E : ℕ) → IsSwitchKey self.old.preset.n self.old.preset.b s (turned_secret self.old.preset.n s r) k.now.rows → noise self.old.preset s a.now m ≤ E
            → noise self.old.preset s out.new (message.turned self.old.preset r m) ≤ row.turned self.old.preset.t self.old.preset.n self.old.preset.b E }
    {
        let g = exponent(&self.preset, r);
        Poly::turn_into(&a.first, g, &mut out.first);
        Poly::turn_into(&a.second, g, &mut self.turned);
        out.second.copy_in(&self.zero);
        self.room
            .switch(k, &self.turned, &mut out.first, &mut out.second);
    }
}
