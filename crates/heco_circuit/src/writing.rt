ghost use Rattle.std.specs.Prelude.{◌≡◌, ◌++◌, length, OnOk, IfOk};
ghost use Rattle.std.specs.List.{flat_map};
ghost use Rattle.std.specs.Int.{w8, w16, w32, to_be_bytes};
ghost use Rattle.heco_circuit.specs.GateFormat.{gate_text};
ghost use Rattle.heco_circuit.specs.VectorFormat.{vector_text, vectors_text};
ghost use Rattle.heco_circuit.specs.CircuitFormat.{name_text, input_text, cell_text, output_text, inputs_text, gates_text, outputs_text, circuit_text};

use crate::circuit::Circuit;
use crate::gate::{Cell, Gate, Output};
use crate::version::version_of;
use heco_fields::{Header, put_u16, put_u32, put_versioned};
use heco_nums::{Bytes, List, Memory, Shape};
use std::alloc::Global;

fn put_name(out: &mut Bytes, name: &[u8]) -> Result<(), Memory>
    ensures { OnOk result (out.new ≡ out.old ++ name_text name.now) }
{
    put_u32(out, name.len())?;
    out.extend_from_slice(name)
}

fn put_input(out: &mut Bytes, input: &Shape) -> Result<(), Memory>
    ensures { OnOk result (out.new ≡ out.old ++ input_text input.now) }
{
    put_name(out, input.name.as_slice())?;
    put_u16(out, input.len as usize)
}

fn put_tag_and(out: &mut Bytes, tag: u8, a: u32) -> Result<(), Memory>
    ensures { OnOk result (out.new ≡ out.old ++ (to_be_bytes w8 tag ++ to_be_bytes w32 a)) }
{
    out.push(tag)?;
    put_u32(out, a as usize)
}

fn put_two(out: &mut Bytes, tag: u8, a: u32, b: u32) -> Result<(), Memory>
    ensures { OnOk result (out.new ≡ out.old ++ (to_be_bytes w8 tag ++ (to_be_bytes w32 a ++ to_be_bytes w32 b))) }
{
    put_tag_and(out, tag, a)?;
    put_u32(out, b as usize)
}

fn put_turn(out: &mut Bytes, r: u16, a: u32) -> Result<(), Memory>
    ensures { OnOk result (out.new ≡ out.old ++ (to_be_bytes w8 8 ++ (to_be_bytes w16 r ++ to_be_bytes w32 a))) }
{
    out.push(8)?;
    put_u16(out, r as usize)?;
    put_u32(out, a as usize)
}

fn put_gate(out: &mut Bytes, gate: Gate) -> Result<(), Memory>
    ensures { OnOk result (out.new ≡ out.old ++ gate_text gate) }
{
    match gate {
        Gate::Neg { a } => put_tag_and(out, 1, a),
        Gate::Add { a, b } => put_two(out, 2, a, b),
        Gate::Sub { a, b } => put_two(out, 3, a, b),
        Gate::Mul { a, b } => put_two(out, 4, a, b),
        Gate::Relin { a } => put_tag_and(out, 5, a),
        Gate::Scale { c, a } => put_two(out, 6, c, a),
        Gate::Shift { c, a } => put_two(out, 7, c, a),
        Gate::Turn { r, a } => put_turn(out, r, a),
        Gate::Weigh { v, a } => put_two(out, 9, v, a),
    }
}

fn put_cell(out: &mut Bytes, cell: Cell) -> Result<(), Memory>
    ensures { OnOk result (out.new ≡ out.old ++ cell_text cell) }
{
    match cell {
        Cell::Number(n) => put_tag_and(out, 0, n),
        Cell::Slot { wire, slot } => {
            put_tag_and(out, 1, wire)?;
            put_u16(out, slot as usize)
        }
    }
}

fn put_cells(out: &mut Bytes, cells: &[Cell]) -> Result<(), Memory>
    ensures { OnOk result (out.new ≡ out.old ++ flat_map cell_text cells.now) }
{
    for cell in cells {
        put_cell(out, *cell)?;
    }
    Ok(())
}

fn put_output(out: &mut Bytes, output: &Output) -> Result<(), Memory>
    ensures { OnOk result (out.new ≡ out.old ++ output_text output.now) }
{
    put_name(out, output.name.as_slice())?;
    put_u16(out, output.cells.len())?;
    put_cells(out, output.cells.as_slice())
}

fn put_inputs(out: &mut Bytes, inputs: &[Shape]) -> Result<(), Memory>
    ensures { OnOk result (out.new ≡ out.old ++ inputs_text inputs.now) }
{
    put_u16(out, inputs.len())?;
    for input in inputs {
        put_input(out, input)?;
    }
    Ok(())
}

fn put_vector(out: &mut Bytes, vector: &[u32]) -> Result<(), Memory>
    ensures { OnOk result (out.new ≡ out.old ++ vector_text vector.now) }
{
    for entry in vector {
        put_u32(out, *entry as usize)?;
    }
    Ok(())
}

fn put_counted_vectors(out: &mut Bytes, vectors: &[List<u32>]) -> Result<(), Memory>
    ensures { OnOk result (out.new ≡ out.old ++ (to_be_bytes w32 (length vectors.now) ++ flat_map vector_text vectors.now)) }
{
    put_u32(out, vectors.len())?;
    for vector in vectors {
        put_vector(out, vector.as_slice())?;
    }
    Ok(())
}

fn put_vectors(out: &mut Bytes, vectors: &[List<u32>]) -> Result<(), Memory>
    ensures { OnOk result (out.new ≡ out.old ++ vectors_text vectors.now) }
{
    match vectors {
        [] => Ok(()),
        _ => put_counted_vectors(out, vectors),
    }
}

fn put_gates(out: &mut Bytes, gates: &[Gate]) -> Result<(), Memory>
    ensures { OnOk result (out.new ≡ out.old ++ gates_text gates.now) }
{
    put_u32(out, gates.len())?;
    for gate in gates {
        put_gate(out, *gate)?;
    }
    Ok(())
}

fn put_outputs(out: &mut Bytes, outputs: &[Output]) -> Result<(), Memory>
    ensures { OnOk result (out.new ≡ out.old ++ outputs_text outputs.now) }
{
    put_u16(out, outputs.len())?;
    for output in outputs {
        put_output(out, output)?;
    }
    Ok(())
}

/// The one spelling of the circuit.
pub fn write(alloc: Global, c: &Circuit) -> Result<Bytes, Memory>
    ensures { IfOk result (λ bytes. bytes ≡ circuit_text c.now) }
{
    let mut out = Bytes::new(alloc);
    let header = Header {
        version: version_of(c.vectors().as_slice(), c.gates().as_slice()),
        preset: c.preset().id,
    };
    put_versioned(&mut out, b"HCIR", header)?;
    put_inputs(&mut out, c.inputs().as_slice())?;
    put_vectors(&mut out, c.vectors().as_slice())?;
    put_gates(&mut out, c.gates().as_slice())?;
    put_outputs(&mut out, c.outputs().as_slice())?;
    Ok(out)
}
