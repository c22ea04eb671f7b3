ghost use Rattle.std.specs.Prelude.{◌≡◌, map, IfOk};
ghost use Rattle.heco_meaning.specs.Meanings.{cell_value, output_values};

use crate::wires::wire_at;
use heco_circuit::{Cell, Output};
use heco_nums::{List, Memory};
use std::alloc::Global;

fn cell_value(wires: &[List<u32>], cell: Cell) -> u32
    ensures { result ≡ cell_value wires.now cell }
{
    match cell {
        Cell::Number(n) => n,
        Cell::Slot { wire, slot } => match wire_at(wires, wire).get(slot as usize) {
            Some(value) => *value,
            None => 0,
        },
    }
}

fn row_of(alloc: Global, wires: &[List<u32>], cells: &[Cell]) -> Result<List<u32>, Memory>
    ensures { IfOk result (λ row. row ≡ map (cell_value wires.now) cells.now) }
{
    let mut row = List::new(alloc);
    let mut rest = cells;
    while let [cell, after @ ..] = rest {
        row.push(cell_value(wires, *cell))?;
        rest = after;
    }
    Ok(row)
}

/// The values of each output.
pub fn rows_of(
    alloc: Global,
    wires: &[List<u32>],
    outputs: &[Output],
) -> Result<List<List<u32>>, Memory>
    ensures { IfOk result (λ rows. rows ≡ map (output_values wires.now) outputs.now) }
{
    let mut rows = List::new(alloc);
    let mut rest = outputs;
    while let [output, after @ ..] = rest {
        rows.push(row_of(alloc, wires, output.cells.as_slice())?)?;
        rest = after;
    }
    Ok(rows)
}
