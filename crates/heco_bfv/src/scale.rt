ghost use Rattle.std.specs.Prelude.{◌≡◌, ◌<◌, ◌≤◌, ℕ, List, length};
ghost use lib.IntN.{ℤ};
ghost use Rattle.heco_noise.specs.Rows as row;
ghost use Rattle.heco_slots.specs.Messages as message;
ghost use Rattle.heco_scheme.specs.Ciphertexts.{IsCiphertext};
ghost use Rattle.heco_scheme.specs.Gates as gate;
ghost use Rattle.heco_scheme.specs.Noise.{noise};

use crate::{Ct, Gates, linear};

impl Gates {
    /// Each part times c, which is centred first.
    pub fn scale(&mut self, c: u32, a: &Ct, out: &mut Ct)
        requires a { IsCiphertext self.old.preset.n a.now }
        requires out { IsCiphertext self.old.preset.n out.old }
        requires count { length out.old ≡ length a.now }
        requires c { c < self.old.preset.t }
        ensures preset { self.new.preset ≡ self.old.preset }
        ensures ciphertext { IsCiphertext self.old.preset.n out.new }
        ensures count { length out.new ≡ length out.old }
        ensures formula { out.new ≡ gate.scaled_by self.old.preset c a.now }
        ensures noise { (s : List ℤ) (m : List ℕ) (E : ℕ) → noise self.old.preset s a.now m ≤ E
            → noise self.old.preset s out.new (message.multiple self.old.preset c m) ≤ row.scaled_by self.old.preset.t c E }
    {
        let factor = linear::factor(&self.preset, c);
        linear::multiple(&a.first, factor, &mut out.first);
        linear::multiple(&a.second, factor, &mut out.second);
        match &mut out.third {
            Some(third) => linear::multiple_third(&a.third, factor, &self.zero, third),
            None => {}
        }
    }
}
