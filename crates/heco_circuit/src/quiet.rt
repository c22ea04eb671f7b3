ghost use Rattle.std.specs.Prelude.{◌≡◌, ◌<◌, ◌^◌, All, IsTrue, IfOk, length};
ghost use Rattle.std.specs.List.{list_all};
ghost use Rattle.heco_noise.specs.Rows.{IsQuiet};
ghost use Rattle.heco_circuit.specs.Bounds.{fresh_of, fresh_bounds, weights_of, wire_bounds, is_below, IsLight};
ghost use Rattle.heco_circuit.specs.inside.Noises.{IsNoise};
ghost use Rattle.heco_circuit.specs.Circuits.{IsCircuit};
ghost use Rattle.heco_circuit.specs.Plans.{Plan, is_vector};

use crate::circuit::Circuit;
use crate::gate::Gate;
use crate::noise::bound_of;
use crate::weights::weights_of;
use heco_noise::{fresh, passes};
use heco_nums::{List, Memory, Preset, Shape};
use std::alloc::Global;

/// The bounds of all wires, or the first gate whose bound passes, and its bound.
#[derive(Debug, Drop)]
pub enum Noise {
    Quiet(List<u128>),
    Passing { gate: u32, bound: u128 },
}

#[tactic(auto, using(crate::proofs::Sizes::fresh_quiet))]
fn fresh_of(p: &Preset) -> u128
    ensures value { result ≡ fresh_of p.now.id }
    ensures quiet { IsQuiet result }
{
    fresh(p)
}

/// The bound of a fresh encryption, for each input.
pub fn fresh_bounds(alloc: Global, p: &Preset, inputs: &[Shape]) -> Result<List<u128>, Memory>
    ensures value { IfOk result (λ bounds. bounds ≡ fresh_bounds p.now.id inputs.now) }
    ensures quiet { IfOk result (λ bounds. All IsQuiet bounds) }
{
    let mut bounds = List::new(alloc);
    let mut rest = inputs;
    while let [_, after @ ..] = rest {
        bounds.push(fresh_of(p))?;
        rest = after;
    }
    Ok(bounds)
}

/// The bound of each wire in turn, until one passes, where the vectors have these weights.
fn noise_under(
    alloc: Global,
    p: &Preset,
    weights: &[u64],
    inputs: &[Shape],
    gates: &[Gate],
) -> Result<Noise, Memory>
    requires light { All IsLight weights.now }
    requires constants { IsTrue (list_all (is_below p.now.t) gates.now) }
    requires few { length gates.now < 2 ^ 25 }
    ensures { IfOk result (IsNoise p.now.id weights.now inputs.now gates.now) }
{
    let mut bounds = fresh_bounds(alloc, p, inputs)?;
    let mut number = 0u32;
    let mut rest = gates;
    while let [gate, after @ ..] = rest {
        let bound = bound_of(p, weights, bounds.as_slice(), *gate);
        if passes(bound) {
            return Ok(Noise::Passing {
                gate: number,
                bound,
            });
        }
        bounds.push(bound)?;
        number += 1;
        rest = after;
    }
    Ok(Noise::Quiet(bounds))
}

/// The same for these vectors.
pub fn noise_of(
    alloc: Global,
    p: &Preset,
    inputs: &[Shape],
    vectors: &[List<u32>],
    gates: &[Gate],
) -> Result<Noise, Memory>
    requires constants { IsTrue (list_all (is_below p.now.t) gates.now) }
    requires vectors { IsTrue (list_all (is_vector p.now.t p.now.slots) vectors.now) }
    requires few { length gates.now < 2 ^ 25 }
    ensures { IfOk result (IsNoise p.now.id (weights_of p.now.id vectors.now) inputs.now gates.now) }
{
    let weights = weights_of(alloc, p, vectors)?;
    noise_under(alloc, p, weights.as_slice(), inputs, gates)
}

/// The written bound of each wire, the inputs first.
pub fn bounds(alloc: Global, c: &Circuit) -> Result<List<u128>, Memory>
    ensures { IfOk result (λ bounds. bounds ≡ wire_bounds c.now.preset (weights_of c.now.preset c.now.vectors) c.now.inputs c.now.gates) }
{
    let noise = noise_of(
        alloc,
        c.preset(),
        c.inputs().as_slice(),
        c.vectors().as_slice(),
        c.gates().as_slice(),
    )?;
    match noise {
        Noise::Quiet(bounds) => Ok(bounds),
        Noise::Passing { .. } => unreachable!(),
    }
}

/// No bound of a valid circuit passes.
pub fn valid_circuits_are_quiet()
    ensures { (p : Plan) → IsCircuit p → All IsQuiet (wire_bounds p.preset (weights_of p.preset p.vectors) p.inputs p.gates) }
{}
