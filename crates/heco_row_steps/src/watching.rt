ghost use Rattle.std.specs.Prelude.{◌≡◌, [], None};
ghost use Rattle.heco_peep.specs.Silent.{silent_rule};

use heco_peep::{Pass, Swap, Window};
use std::cell::Cell;
use std::rc::Rc;

/// Answers nothing, and counts in a cell that others see how many windows it is shown.
#[derive(Drop)]
pub struct Watching {
    pub windows: Rc<Cell<u32>>,
}

impl Pass for Watching {
    ghost handed = { λ _. record { rule = silent_rule; state = [] } };

    fn look(&mut self, _w: &Window) -> Option<Swap> {
        self.windows.set(self.windows.get().wrapping_add(1));
        None
    }
}
