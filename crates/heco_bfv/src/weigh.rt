ghost use Rattle.std.specs.Prelude.{◌≡◌, ◌≤◌, ℕ, List, length};
ghost use lib.IntN.{ℤ};
ghost use Rattle.heco_noise.specs.Rows as row;
ghost use Rattle.heco_ring.specs.Ring.{wholes};
ghost use Rattle.heco_slots.specs.Messages as message;
ghost use Rattle.heco_slots.specs.Weighing.{vector_weight};
ghost use Rattle.heco_scheme.specs.Ciphertexts.{IsCiphertext};
ghost use Rattle.heco_scheme.specs.Gates as gate;
ghost use Rattle.heco_scheme.specs.Noise.{noise};

use crate::{Ct, Gates, linear};
use heco_poly::Poly;

impl Gates {
    /// Each part times m, which is the polynomial that a plain vector weighs by: slot j of the message is multiplied
    /// by the vector's number there, in both rows.
    pub fn weigh(&mut self, m: &Poly, a: &Ct, out: &mut Ct)
        requires m { length m.now ≡ self.old.preset.n }
        requires a { IsCiphertext self.old.preset.n a.now }
        requires out { IsCiphertext self.old.preset.n out.old }
        requires count { length out.old ≡ length a.now }
        ensures preset { self.new.preset ≡ self.old.preset }
        ensures ciphertext { IsCiphertext self.old.preset.n out.new }
        ensures count { length out.new ≡ length out.old }
        ensures product { out.new ≡ gate.times_each self.old.preset (wholes m.now) a.now }
        ensures formula { (v : List ℕ) → m.now ≡ gate.weigher_words self.old.preset v → out.new ≡ gate.weighed self.old.preset v a.now }
        ensures noise { (v : List ℕ) → m.now ≡ gate.weigher_words self.old.preset v → (s : List ℤ) (l : List ℕ) (E : ℕ) → noise self.old.preset s a.now l ≤ E
            → noise self.old.preset s out.new (message.weighed self.old.preset v l) ≤ row.weighed (vector_weight self.old.preset v) E }
    {
        Poly::mul_into(m, &a.first, &mut out.first);
        Poly::mul_into(m, &a.second, &mut out.second);
        match &mut out.third {
            Some(third) => linear::product_third(m, &a.third, &self.zero, third),
            None => {}
        }
    }
}
