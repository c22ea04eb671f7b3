use heco_circuit::Circuit;
use heco_draw::draw_values;
use heco_eval::plain;
use heco_meaning::meaning;
use heco_nums::{Inputs, List, Outputs, Shape};
use heco_types::Typed;
use std::alloc::Global;
use std::test::Fail;

const SEED: u64 = 7;

/// A row for each input, of values in order.
pub fn rows_of(alloc: Global, shapes: &[Shape], values: &[u32]) -> Result<Inputs, Fail> {
    let mut rows = List::new(alloc);
    let mut rest = values;
    for shape in shapes {
        let (row, after) = rest
            .split_at_checked(shape.len as usize)
            .ok_or("too few values")?;
        rows.push(List::from_slice(alloc, row)?)?;
        rest = after;
    }
    Ok(Inputs { rows })
}

fn are_same(found: &Outputs, wanted: &Outputs) -> bool {
    let (found, wanted) = (found.rows.as_slice(), wanted.rows.as_slice());
    if found.len() != wanted.len() {
        return false;
    }
    for i in 0..wanted.len() {
        if found[i].as_slice() != wanted[i].as_slice() {
            return false;
        }
    }
    true
}

fn drawn_inputs(alloc: Global, t: &Typed) -> Result<Inputs, Fail> {
    let values = draw_values(alloc, t.preset(), SEED, 1024)?;
    rows_of(alloc, t.inputs().as_slice(), values.as_slice())
}

fn outputs_of(alloc: Global, t: &Typed, inputs: &Inputs) -> Result<Outputs, Fail> {
    match plain(alloc, t, inputs) {
        Ok(outputs) => Ok(outputs),
        Err(_) => Err("a rule of execution is broken".into()),
    }
}

fn gives(alloc: Global, c: &Circuit, inputs: &Inputs, wanted: &Outputs) -> Result<bool, Fail> {
    let found = meaning(alloc, c, inputs)?;
    Ok(are_same(&found, wanted))
}

fn gives_the_same(alloc: Global, t: &Typed, c: &Circuit, inputs: &Inputs) -> Result<bool, Fail> {
    let wanted = outputs_of(alloc, t, inputs)?;
    gives(alloc, c, inputs, &wanted)
}

/// Whether the circuit gives what the source gives, on drawn inputs.
pub fn means_the_source(alloc: Global, t: &Typed, c: &Circuit) -> Result<bool, Fail> {
    let inputs = drawn_inputs(alloc, t)?;
    gives_the_same(alloc, t, c, &inputs)
}
