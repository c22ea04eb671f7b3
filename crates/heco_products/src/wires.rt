ghost use Rattle.std.specs.Prelude.{◌≡◌, ◌<◌, ◌^◌, ◌||◌, ℕ, false, IfOk, count_by, length};
ghost use Rattle.std.specs.List.{list_any, slice_index_or};
ghost use Rattle.heco_products.specs.Decrypting.{output_wires, output_wire_count};
ghost use Rattle.heco_run_laws.specs.Results.{is_slot_of, is_output_wire};

use heco_circuit::{Cell, Circuit, Output};
use heco_nums::Memory;
use std::alloc::Global;

// Marks the wire of which the element is a slot.
fn mark_cell(cell: Cell, wires: &mut [bool])
    ensures { (w : ℕ) → w < length wires.old → slice_index_or wires.new w false ≡ (slice_index_or wires.old w false || is_slot_of w cell) }
{
    if let Cell::Slot { wire, .. } = cell {
        let wire = wire as usize;
        if wire < wires.len() {
            wires[wire] = true;
        }
    }
}

fn mark_cells(cells: &[Cell], wires: &mut [bool])
    ensures { (w : ℕ) → w < length wires.old → slice_index_or wires.new w false ≡ (slice_index_or wires.old w false || list_any (is_slot_of w) cells.now) }
{
    let mut rest = cells;
    while let [cell, after @ ..] = rest {
        mark_cell(*cell, wires);
        rest = after;
    }
}

fn mark_outputs(outputs: &[Output], wires: &mut [bool])
    ensures { (w : ℕ) → w < length wires.old → slice_index_or wires.new w false ≡ (slice_index_or wires.old w false || is_output_wire outputs.now w) }
{
    let mut rest = outputs;
    while let [output, after @ ..] = rest {
        mark_cells(output.cells.as_slice(), wires);
        rest = after;
    }
}

/// For each wire of the circuit whether an output has a slot of it.
pub fn output_wires(alloc: Global, circuit: &Circuit) -> Result<Vec<bool>, Memory>
    ensures marked { IfOk result (λ wires. wires.items ≡ output_wires circuit.now) }
    ensures few { IfOk result (λ wires. length wires.items < 2 ^ 26) }
{
    let _valid = circuit.preset();
    let count = circuit.inputs().len() + circuit.gates().len();
    let mut wires = vec![in alloc; false; count]?;
    mark_outputs(circuit.outputs().as_slice(), wires.as_mut_slice());
    Ok(wires)
}

fn count_marked(wires: &[bool]) -> u32
    requires { length wires.now < 2 ^ 26 }
    ensures { result ≡ count_by (λ b. b) wires.now }
{
    let mut count = 0u32;
    for wire in wires {
        if *wire {
            count += 1;
        }
    }
    count
}

/// How many different wires the outputs have slots of.
pub fn output_wire_count(alloc: Global, circuit: &Circuit) -> Result<u32, Memory>
    ensures { IfOk result (λ count. count ≡ output_wire_count circuit.now) }
{
    let wires = output_wires(alloc, circuit)?;
    Ok(count_marked(wires.as_slice()))
}
