//! The lists of a board that opens.

ghost use Rattle.std.specs.Prelude.{◌≡◌, ◌+◌, ◌*◌, ◌^◌, ◌<◌, ◌≤◌, ◌++◌, ℕ, true, length, map, filter, slice_index, IfOk, OnOk};
ghost use Rattle.std.specs.List.{flat_map};
ghost use Rattle.heco_schedules.specs.Rising.{names};
ghost use Rattle.heco_schedules.specs.Standings.{gate_ready};
ghost use Rattle.heco_schedules.specs.Tables.{below};
ghost use Rattle.heco_sched.specs.Wirings.{operands_of, cell_wires, output_wires};
ghost use Rattle.heco_sched.specs.Tallies.{times_in, sum_below, ReadsWires};
ghost use Rattle.heco_sched.specs.Readers.{operands_at};

use crate::gate::operands;
use crate::uses::{raise_at, raise_uses};
use crate::wires::gate_is_ready;
use heco_circuit::{Cell, Gate, Output};
use heco_marks::Marks;
use heco_nums::Memory;
use heco_schedules::Stage;
use std::alloc::Global;

fn add_wire(wires: &mut Vec<u32>, cell: &Cell) -> Result<(), Memory>
    ensures { OnOk result (wires.new.items ≡ wires.old.items ++ cell_wires cell.now) }
{
    match cell {
        Cell::Number(_) => {}
        Cell::Slot { wire, .. } => wires.push(*wire)?,
    }
    Ok(())
}

fn add_wires(wires: &mut Vec<u32>, cells: &[Cell]) -> Result<(), Memory>
    ensures { OnOk result (wires.new.items ≡ wires.old.items ++ flat_map cell_wires cells.now) }
{
    let mut rest = cells;
    while let [cell, after @ ..] = rest {
        add_wire(wires, cell)?;
        rest = after;
    }
    Ok(())
}

/// The wires of all elements of the outputs.
pub fn output_wires(alloc: Global, outputs: &[Output]) -> Result<Vec<u32>, Memory>
    ensures { IfOk result (λ wires. wires.items ≡ output_wires outputs.now) }
{
    let mut wires = Vec::new(alloc);
    let mut rest = outputs;
    while let [output, after @ ..] = rest {
        add_wires(&mut wires, output.cells.as_slice())?;
        rest = after;
    }
    Ok(wires)
}

/// Whether each gate is ready.
fn ready_flags(
    alloc: Global,
    inputs: u32,
    gates: &[Gate],
    stages: &[Stage],
) -> Result<Vec<bool>, Memory>
    requires small { length gates.now < 2 ^ 28 }
    requires staged { length stages.now ≡ length gates.now }
    requires wired { ReadsWires inputs (map operands_of gates.now) }
    ensures { IfOk result (λ flags. flags.items ≡ map (gate_ready inputs (map operands_of gates.now) stages.now) (below (length gates.now))) }
{
    let mut flags = Vec::with_capacity(alloc, gates.len())?;
    for gate in 0..gates.len() as u32 {
        flags.push(gate_is_ready(inputs, gates, stages, gate))?;
    }
    Ok(flags)
}

/// The gates that are ready, with a place for each gate.
pub fn ready_ones(
    alloc: Global,
    inputs: u32,
    gates: &[Gate],
    stages: &[Stage],
) -> Result<Marks, Memory>
    requires small { length gates.now < 2 ^ 28 }
    requires staged { length stages.now ≡ length gates.now }
    requires wired { ReadsWires inputs (map operands_of gates.now) }
    ensures ready { IfOk result (λ ready. ready.numbers ≡ filter (gate_ready inputs (map operands_of gates.now) stages.now) (below (length gates.now))) }
    ensures places { IfOk result (λ ready. length gates.now ≤ ready.places) }
{
    let flags = ready_flags(alloc, inputs, gates, stages)?;
    Marks::of(alloc, flags.as_slice())
}

fn count_reads(uses: &mut Vec<u32>, gates: &[Gate])
    requires small { length gates.now < 2 ^ 28 }
    requires reach { (gate wire : ℕ) → names (operands_at (map operands_of gates.now) gate) wire ≡ true → wire < length uses.old.items }
    requires none { (wire : ℕ) → slice_index uses.old.items wire ≡ 0 }
    ensures count { length uses.new.items ≡ length uses.old.items }
    ensures each { (wire : ℕ) → slice_index uses.new.items wire ≡ sum_below (λ gate. times_in (operands_at (map operands_of gates.now) gate) wire) (length gates.now) }
    ensures few { (wire : ℕ) → slice_index uses.new.items wire ≤ 2 * length gates.now }
{
    for number in 0..gates.len() {
        let (first, second) = operands(gates[number]);
        raise_uses(uses, first, second);
    }
}

fn count_outputs(uses: &mut Vec<u32>, outputs: &[u32])
    requires reach { (wire : ℕ) → names outputs.now wire ≡ true → wire < length uses.old.items }
    requires few { (wire : ℕ) → slice_index uses.old.items wire + length outputs.now < 2 ^ 32 }
    ensures count { length uses.new.items ≡ length uses.old.items }
    ensures each { (wire : ℕ) → slice_index uses.new.items wire ≡ slice_index uses.old.items wire + times_in outputs.now wire }
{
    for wire in outputs {
        raise_at(uses, *wire);
    }
}

/// How often each wire is read by gates and named by outputs.
pub fn count_uses(
    alloc: Global,
    wires: usize,
    gates: &[Gate],
    outputs: &[u32],
) -> Result<Vec<u32>, Memory>
    requires small { length gates.now < 2 ^ 28 }
    requires few { length outputs.now < 2 ^ 30 }
    requires reach { (gate wire : ℕ) → names (operands_at (map operands_of gates.now) gate) wire ≡ true → wire < wires }
    requires named { (wire : ℕ) → names outputs.now wire ≡ true → wire < wires }
    ensures count { IfOk result (λ uses. length uses.items ≡ wires) }
    ensures each { IfOk result (λ uses. (wire : ℕ)
        → slice_index uses.items wire ≡ times_in outputs.now wire + sum_below (λ gate. times_in (operands_at (map operands_of gates.now) gate) wire) (length gates.now)) }
{
    let mut uses = vec![in alloc; 0; wires]?;
    count_reads(&mut uses, gates);
    count_outputs(&mut uses, outputs);
    Ok(uses)
}
