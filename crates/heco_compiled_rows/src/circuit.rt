use heco_circuit::{Circuit, bounds, needs};
use heco_nums::{KeyNeeds, Shape};
use std::alloc::Global;
use std::test::Fail;

fn text_of(alloc: Global, needs: &KeyNeeds) -> Result<String, Fail> {
    let mut text = String::from_str(alloc, if needs.relin { "relin" } else { "" })?;
    for amount in needs.turns.as_slice() {
        text.push_str(format!(in alloc; " {amount}")?.as_str())?;
    }
    Ok(text)
}

/// The keys that the circuit needs: `relin` where it needs that of relinearisation, and the amounts of turns.
pub fn keys_of(alloc: Global, c: &Circuit) -> Result<String, Fail> {
    let needs = needs(alloc, c)?;
    text_of(alloc, &needs)
}

/// The greatest bound of a gate, 0 where there is none.
pub fn greatest_bound(alloc: Global, c: &Circuit) -> Result<u128, Fail> {
    let bounds = bounds(alloc, c)?;
    let mut greatest = 0;
    for i in c.inputs().len()..bounds.len() {
        if *bounds.get(i) > greatest {
            greatest = *bounds.get(i);
        }
    }
    Ok(greatest)
}

fn is_port(name: &[u8], len: usize, shape: &Shape) -> bool {
    name == shape.name.as_slice() && len == shape.len as usize
}

/// Whether the inputs have these names and lengths.
pub fn has_inputs(c: &Circuit, shapes: &[Shape]) -> bool {
    let inputs = c.inputs().as_slice();
    if inputs.len() != shapes.len() {
        return false;
    }
    for i in 0..shapes.len() {
        if !is_port(
            inputs[i].name.as_slice(),
            inputs[i].len as usize,
            &shapes[i],
        ) {
            return false;
        }
    }
    true
}

/// Whether the outputs have these names and lengths.
pub fn has_outputs(c: &Circuit, shapes: &[Shape]) -> bool {
    let outputs = c.outputs().as_slice();
    if outputs.len() != shapes.len() {
        return false;
    }
    for i in 0..shapes.len() {
        if !is_port(
            outputs[i].name.as_slice(),
            outputs[i].cells.len(),
            &shapes[i],
        ) {
            return false;
        }
    }
    true
}
