ghost use Rattle.std.specs.Prelude.{◌≡◌};
ghost use Rattle.heco_peep.specs.Rules.{Handed, IsWindow};

use crate::window::{Swap, Window};

/// A rewrite of single gates. What it answers and its next state follow its rule, which keeps the gate's meaning
/// and stays the same for the whole life of the object.
pub trait Pass: Drop {
    ghost handed: { Self → Handed };

    fn look(&mut self, w: &Window) -> Option<Swap>
        requires { IsWindow w.now }
        ensures answer { result ≡ ((handed self.old).rule.answer (handed self.old).state w.now).0 }
        ensures moves { (handed self.new).state ≡ ((handed self.old).rule.answer (handed self.old).state w.now).1 }
        ensures same { (handed self.new).rule ≡ (handed self.old).rule };
}
