use crate::pass::Pass;
use crate::window::{Swap, Window};
use heco_circuit::Gate;

/// The negative of a negative is the wire itself.
#[derive(Drop)]
pub struct NegPass {
    pub done: u64,
}

impl Pass for NegPass {
    ghost use Rattle.std.specs.Prelude.{[], ◌∷◌};
    ghost use Rattle.heco_peep.specs.NegRule.{neg_rule};

    ghost handed = { λ p. record { rule = neg_rule; state = p.done ∷ [] } };

    fn look(&mut self, w: &Window) -> Option<Swap> {
        let Gate::Neg { .. } = w.at else {
            return None;
        };
        let Some(Gate::Neg { a: x }) = w.first else {
            return None;
        };
        self.done = self.done.saturating_add(1);
        Some(Swap::Wire(x))
    }
}
