ghost use Rattle.std.specs.Prelude.{◌≡◌, ◌≤◌, map, IfOk};
ghost use Rattle.heco_nums.specs.Runs.{along};
ghost use Rattle.heco_meaning.specs.Meanings.{wire_at, wire_of, with_wire, filled};

use crate::slots;
use heco_circuit::Gate;
use heco_nums::{List, Memory};
use std::alloc::Global;

pub fn wire_at(wires: &[List<u32>], a: u32) -> &[u32]
    ensures { result.now ≡ wire_at wires.now a }
{
    match wires.get(a as usize) {
        Some(wire) => wire.as_slice(),
        None => &[],
    }
}

/// The wire that a gate gives behind these wires, in a circuit of these plain vectors.
fn wire_of(
    alloc: Global,
    t: u32,
    vectors: &[List<u32>],
    wires: &[List<u32>],
    gate: Gate,
) -> Result<List<u32>, Memory>
    requires { 1 ≤ t }
    ensures { IfOk result (λ wire. wire ≡ wire_of t vectors.now wires.now gate) }
{
    match gate {
        Gate::Neg { a } => slots::negatives(alloc, t, wire_at(wires, a)),
        Gate::Add { a, b } => slots::sums(alloc, t, wire_at(wires, a), wire_at(wires, b)),
        Gate::Sub { a, b } => slots::differences(alloc, t, wire_at(wires, a), wire_at(wires, b)),
        Gate::Mul { a, b } => slots::products(alloc, t, wire_at(wires, a), wire_at(wires, b)),
        Gate::Relin { a } => List::from_slice(alloc, wire_at(wires, a)),
        Gate::Scale { c, a } => slots::multiples(alloc, t, c, wire_at(wires, a)),
        Gate::Shift { c, a } => slots::shifted(alloc, t, c, wire_at(wires, a)),
        Gate::Turn { r, a } => slots::turned(alloc, r, wire_at(wires, a)),
        Gate::Weigh { v, a } => slots::products(alloc, t, wire_at(vectors, v), wire_at(wires, a)),
    }
}

/// The wires of the inputs, each filled up with zeros.
pub fn first_wires(alloc: Global, slots: u32, rows: &[List<u32>]) -> Result<List<List<u32>>, Memory>
    ensures { IfOk result (λ wires. wires ≡ map (filled slots) rows.now) }
{
    let mut wires = List::new(alloc);
    let mut rest = rows;
    while let [row, after @ ..] = rest {
        wires.push(slots::filled(alloc, slots, row.as_slice())?)?;
        rest = after;
    }
    Ok(wires)
}

/// All wires, each gate by those before it.
pub fn all_wires(
    alloc: Global,
    t: u32,
    vectors: &[List<u32>],
    inputs: List<List<u32>>,
    gates: &[Gate],
) -> Result<List<List<u32>>, Memory>
    requires { 1 ≤ t }
    ensures { IfOk result (λ wires. wires ≡ along (with_wire t vectors.now) inputs gates.now) }
{
    let mut wires = inputs;
    let mut rest = gates;
    while let [gate, after @ ..] = rest {
        let wire = wire_of(alloc, t, vectors, wires.as_slice(), *gate)?;
        wires.push(wire)?;
        rest = after;
    }
    Ok(wires)
}
