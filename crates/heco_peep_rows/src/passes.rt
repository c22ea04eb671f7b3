use heco_circuit::Gate;
use heco_peep::{NegPass, Pass, ScalePass, SubPass, Swap, Window};
use std::alloc::Global;
use std::cell::Cell;
use std::rc::Rc;
use std::test::Fail;

/// Answers nothing, and counts in a cell that others see how often it is asked.
#[derive(Drop)]
pub struct Counted {
    pub looks: Rc<Cell<u32>>,
}

impl Pass for Counted {
    ghost use Rattle.std.specs.Prelude.{[]};
    ghost use Rattle.heco_peep.specs.Silent.{silent_rule};

    ghost handed = { λ _. record { rule = silent_rule; state = [] } };

    fn look(&mut self, _w: &Window) -> Option<Swap> {
        self.looks.set(self.looks.get().wrapping_add(1));
        None
    }
}

/// A multiple by 1 is a sum with 0, which is louder.
#[derive(Drop)]
pub struct Louder;

impl Pass for Louder {
    ghost use Rattle.std.specs.Prelude.{[]};
    ghost use Rattle.heco_peep_rows.specs.Louder.{louder_rule};

    ghost handed = { λ _. record { rule = louder_rule; state = [] } };

    fn look(&mut self, w: &Window) -> Option<Swap> {
        match w.at {
            Gate::Scale { c: 1, a } => Some(Swap::Gate(Gate::Shift { c: 0, a })),
            _ => None,
        }
    }
}

/// The negative of a relinearised wire is that of the wire, which has three parts.
#[derive(Drop)]
pub struct Longer;

impl Pass for Longer {
    ghost use Rattle.std.specs.Prelude.{[]};
    ghost use Rattle.heco_peep_rows.specs.Longer.{longer_rule};

    ghost handed = { λ _. record { rule = longer_rule; state = [] } };

    fn look(&mut self, w: &Window) -> Option<Swap> {
        let Gate::Neg { .. } = w.at else {
            return None;
        };
        let Some(Gate::Relin { a: x }) = w.first else {
            return None;
        };
        Some(Swap::Gate(Gate::Neg { a: x }))
    }
}

fn put_counted(
    alloc: Global,
    passes: &mut Vec<Box<dyn Pass>>,
    looks: Rc<Cell<u32>>,
) -> Result<(), Fail> {
    Ok(passes.push(Box::new(alloc, Counted { looks })?)?)
}

fn put(
    alloc: Global,
    passes: &mut Vec<Box<dyn Pass>>,
    letter: u8,
    looks: &Rc<Cell<u32>>,
) -> Result<(), Fail> {
    match letter {
        b'S' => passes.push(Box::new(alloc, SubPass { done: 0 })?)?,
        b'N' => passes.push(Box::new(alloc, NegPass { done: 0 })?)?,
        b'M' => passes.push(Box::new(alloc, ScalePass { done: 0 })?)?,
        b'C' => put_counted(alloc, passes, looks.clone()?)?,
        b'L' => passes.push(Box::new(alloc, Louder)?)?,
        b'R' => passes.push(Box::new(alloc, Longer)?)?,
        _ => return Err("no such pass".into()),
    }
    Ok(())
}

/// The passes of these letters: the three of the program, and those above.
pub fn passes_of(
    alloc: Global,
    letters: &str,
    looks: &Rc<Cell<u32>>,
) -> Result<Vec<Box<dyn Pass>>, Fail> {
    let mut passes = Vec::new(alloc);
    for letter in letters.as_bytes() {
        put(alloc, &mut passes, *letter, looks)?;
    }
    Ok(passes)
}
