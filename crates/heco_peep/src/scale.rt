use crate::pass::Pass;
use crate::window::{Swap, Window};
use heco_circuit::Gate;

/// A multiple of a multiple is a multiple by the product of both constants.
#[derive(Drop)]
pub struct ScalePass {
    pub done: u64,
}

impl Pass for ScalePass {
    ghost use Rattle.std.specs.Prelude.{[], ◌∷◌};
    ghost use Rattle.heco_peep.specs.ScaleRule.{scale_rule};

    ghost handed = { λ p. record { rule = scale_rule; state = p.done ∷ [] } };

    fn look(&mut self, w: &Window) -> Option<Swap> {
        let Gate::Scale { c, .. } = w.at else {
            return None;
        };
        let Some(Gate::Scale { c: d, a: x }) = w.first else {
            return None;
        };
        self.done = self.done.saturating_add(1);
        let product = u64::from(c) * u64::from(d) % u64::from(w.preset.t);
        Some(Swap::Gate(Gate::Scale {
            c: product as u32,
            a: x,
        }))
    }
}
