ghost use Rattle.std.specs.Prelude.{◌≡◌, ◌≤◌, ◌^◌, ◌<◌, length, IfErr, IfOk, OnOk, codes, IsSome};
ghost use Rattle.std.specs.Int.{w16};
ghost use Rattle.heco_fields.specs.Formats.{number};
ghost use Rattle.heco_nums.specs.Presets.{modulus_of, slots_of};
ghost use Rattle.heco_fields.specs.Readings.{Gives, IsAtField, reading};
ghost use Rattle.heco_nums.specs.Runs.{along};
ghost use Rattle.heco_circuit.specs.Validity.{with_gate};
ghost use Rattle.heco_circuit.specs.CircuitFormat.{inputs, gates, is_output_count, outputs, plan_with, circuit};

use crate::gate::{Gate, Output};
use crate::parts::input_parts;
use crate::read_gates::gates_at;
use crate::read_ports::{inputs_at, outputs_at};
use crate::read_vectors::vectors_at;
use crate::version::{NEWEST, version_of};
use heco_fields::{Fault, broken, u16_within, u32_within, versioned_at};
use heco_nums::{List, Preset, Shape};
use std::alloc::Global;

/// What a circuit file says, whatever its noise.
#[derive(Debug, Drop)]
pub struct Draft {
    pub preset: Preset,
    pub inputs: List<Shape>,
    pub vectors: List<List<u32>>,
    pub gates: List<Gate>,
    pub outputs: List<Output>,
}

#[tactic(auto, using(heco_fields::proofs::Steps::reading_then), unfolding(crate::specs::CircuitFormat::inputs))]
fn all_inputs_at<'a>(
    alloc: Global,
    preset: &Preset,
    bytes: &'a [u8],
) -> Result<(List<Shape>, &'a [u8]), Fault>
    ensures inputs { Gives (λ x. (x.0, x.1.now)) result (reading (inputs preset.now.id) bytes.now) }
    ensures few { IfOk result (λ x. length x.0 ≤ 256) }
{
    let (count, rest) = u16_within(bytes, 0, 256)?;
    inputs_at(alloc, preset.slots as u16, count, rest)
}

#[tactic(auto, using(heco_fields::proofs::Steps::reading_then), unfolding(crate::specs::CircuitFormat::gates))]
fn all_gates_at<'a>(
    alloc: Global,
    version: u8,
    preset: &Preset,
    vectors: u32,
    parts: List<u8>,
    bytes: &'a [u8],
) -> Result<((List<Gate>, List<u8>), &'a [u8]), Fault>
    ensures gates { Gives (λ x. (x.0.0, x.1.now)) result (reading (gates version preset.now.id vectors parts) bytes.now) }
    ensures parts { IfOk result (λ x. x.0.1 ≡ along with_gate parts x.0.0) }
{
    let (count, rest) = u32_within(bytes, 0, (1 << 25) - 1)?;
    gates_at(
        alloc,
        version,
        preset.t,
        preset.slots as u16,
        vectors,
        parts,
        count,
        rest,
    )
}

// The number of outputs, which is broken where the version isn't that of the vectors and the gates.
#[tactic(auto, unfolding(heco_fields::specs::Readings::reading))]
fn output_count_at<'a>(
    version: u8,
    inputs: &[Shape],
    vectors: &[List<u32>],
    gates: &[Gate],
    bytes: &'a [u8],
) -> Result<(u16, &'a [u8]), Fault>
    requires { length inputs.now ≤ 256 }
    ensures read { Gives (λ x. (x.0, x.1.now)) result (reading (number w16 (is_output_count version inputs.now vectors.now gates.now)) bytes.now) }
    ensures field { IfErr result IsAtField }
{
    if version != version_of(vectors, gates) {
        return Err(broken(bytes));
    }
    u16_within(bytes, 0, 256 - inputs.len() as u16)
}

#[tactic(auto, using(heco_fields::proofs::Steps::reading_then), unfolding(crate::specs::CircuitFormat::outputs))]
fn all_outputs_at<'a>(
    alloc: Global,
    version: u8,
    preset: &Preset,
    inputs: &[Shape],
    vectors: &[List<u32>],
    gates: &[Gate],
    parts: &[u8],
    bytes: &'a [u8],
) -> Result<(List<Output>, &'a [u8]), Fault>
    requires { length inputs.now ≤ 256 }
    ensures { Gives (λ x. (x.0, x.1.now)) result (reading (outputs version preset.now.id inputs.now vectors.now gates.now parts.now) bytes.now) }
{
    let (count, rest) = output_count_at(version, inputs, vectors, gates, bytes)?;
    outputs_at(
        alloc,
        preset.t,
        preset.slots as u16,
        inputs,
        parts,
        count,
        rest,
    )
}

#[tactic(auto, using(heco_fields::proofs::Steps::reading_then), unfolding(crate::specs::CircuitFormat::circuit, heco_fields::specs::Readings::reading))]
pub fn draft_at(alloc: Global, bytes: &[u8]) -> Result<(Draft, &[u8]), Fault>
    ensures { Gives (λ x. (plan_with x.0.preset.id x.0.inputs x.0.vectors x.0.gates x.0.outputs, x.1.now)) result (reading circuit bytes.now) }
{
    let (header, rest) = versioned_at(bytes, b"HCIR", NEWEST)?;
    let preset = numbered_preset(header.preset);
    let (inputs, rest) = all_inputs_at(alloc, &preset, rest)?;
    let (vectors, rest) = vectors_at(alloc, header.version, &preset, rest)?;
    let parts = input_parts(alloc, inputs.as_slice())?;
    let count = vectors.len() as u32;
    let ((gates, parts), rest) = all_gates_at(alloc, header.version, &preset, count, parts, rest)?;
    let (outputs, rest) = all_outputs_at(
        alloc,
        header.version,
        &preset,
        inputs.as_slice(),
        vectors.as_slice(),
        gates.as_slice(),
        parts.as_slice(),
        rest,
    )?;
    Ok((
        Draft {
            preset,
            inputs,
            vectors,
            gates,
            outputs,
        },
        rest,
    ))
}

fn numbered_preset(id: u8) -> Preset
    requires low { 1 ≤ id }
    requires high { id ≤ 5 }
    ensures { result.id ≡ id }
{
    match Preset::by_id(id) {
        Some(preset) => preset,
        None => unreachable!(),
    }
}
