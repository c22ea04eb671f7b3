ghost use Rattle.std.specs.Prelude.{◌≡◌, map, slice_index, IfOk};
ghost use Rattle.heco_rewrites.specs.Wires.{cell_over, output_over};

use crate::renaming::name_at;
use heco_circuit::{Cell, Output};
use heco_nums::{List, Memory, Shape};
use std::alloc::Global;

fn cell_over(names: &[u32], cell: Cell) -> Cell
    ensures { result ≡ cell_over (slice_index names.now) cell }
{
    match cell {
        Cell::Number(n) => Cell::Number(n),
        Cell::Slot { wire, slot } => Cell::Slot {
            wire: name_at(names, wire),
            slot,
        },
    }
}

fn cells_over(alloc: Global, names: &[u32], cells: &[Cell]) -> Result<List<Cell>, Memory>
    ensures { IfOk result (λ out. out ≡ map (cell_over (slice_index names.now)) cells.now) }
{
    let mut out = List::new(alloc);
    let mut rest = cells;
    while let [cell, after @ ..] = rest {
        out.push(cell_over(names, *cell))?;
        rest = after;
    }
    Ok(out)
}

fn output_over(alloc: Global, names: &[u32], output: &Output) -> Result<Output, Memory>
    ensures { IfOk result (λ out. out ≡ output_over (slice_index names.now) output.now) }
{
    let name = List::from_slice(alloc, output.name.as_slice())?;
    let cells = cells_over(alloc, names, output.cells.as_slice())?;
    Ok(Output { name, cells })
}

/// The outputs over the wires of these names.
pub fn outputs_over(
    alloc: Global,
    names: &[u32],
    outputs: &[Output],
) -> Result<List<Output>, Memory>
    ensures { IfOk result (λ out. out ≡ map (output_over (slice_index names.now)) outputs.now) }
{
    let mut out = List::new(alloc);
    let mut rest = outputs;
    while let [output, after @ ..] = rest {
        out.push(output_over(alloc, names, output)?)?;
        rest = after;
    }
    Ok(out)
}

/// The same names and lengths.
pub fn copied_inputs(alloc: Global, inputs: &[Shape]) -> Result<List<Shape>, Memory>
    ensures { IfOk result (λ copy. copy ≡ inputs.now) }
{
    let mut copy = List::new(alloc);
    let mut rest = inputs;
    while let [input, after @ ..] = rest {
        let name = List::from_slice(alloc, input.name.as_slice())?;
        copy.push(Shape {
            name,
            len: input.len,
        })?;
        rest = after;
    }
    Ok(copy)
}

/// The same vectors.
pub fn copied_vectors(alloc: Global, vectors: &[List<u32>]) -> Result<List<List<u32>>, Memory>
    ensures { IfOk result (λ copy. copy ≡ vectors.now) }
{
    let mut copy = List::new(alloc);
    let mut rest = vectors;
    while let [vector, after @ ..] = rest {
        copy.push(List::from_slice(alloc, vector.as_slice())?)?;
        rest = after;
    }
    Ok(copy)
}
