use crate::pass::Pass;
use crate::window::{Swap, Window};
use heco_circuit::Gate;

/// A sum with a negative is a difference.
#[derive(Drop)]
pub struct SubPass {
    pub done: u64,
}

impl Pass for SubPass {
    ghost use Rattle.std.specs.Prelude.{[], ◌∷◌};
    ghost use Rattle.heco_peep.specs.SubRule.{sub_rule};

    ghost handed = { λ p. record { rule = sub_rule; state = p.done ∷ [] } };

    fn look(&mut self, w: &Window) -> Option<Swap> {
        let Gate::Add { a, .. } = w.at else {
            return None;
        };
        let Some(Gate::Neg { a: y }) = w.second else {
            return None;
        };
        self.done = self.done.saturating_add(1);
        Some(Swap::Gate(Gate::Sub { a, b: y }))
    }
}
