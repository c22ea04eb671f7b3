ghost use Rattle.std.specs.Prelude.{[]};

use heco_sched::Picker;
use std::cell::Cell;
use std::rc::Rc;

/// Picks the first event, and counts in a cell that others see how often it is asked.
#[derive(Drop)]
pub struct Counted {
    pub calls: Rc<Cell<u32>>,
}

impl Picker for Counted {
    ghost state = { λ _. [] };

    ghost rule = { λ _ held count. (0, held) };

    fn pick(&mut self, _count: u32) -> u32 {
        self.calls.set(self.calls.get().wrapping_add(1));
        0
    }
}
