ghost use Rattle.std.specs.Prelude.{◌≡◌, []};
ghost use Rattle.heco_nums.specs.PresetRows.{preset_of};
ghost use Rattle.heco_circuit.specs.Circuits.{IsCircuit};

use crate::gate::{Gate, Output};
use heco_nums::{List, Preset, Shape};
use std::marker::Model;

/// A valid circuit: its file has a spelling of fewer than 2^29 bytes, and no gate's bound passes.
#[derive(Debug, Drop)]
pub struct Circuit {
    preset: Preset,
    inputs: List<Shape>,
    vectors: List<List<u32>>,
    gates: List<Gate>,
    outputs: List<Output>,
}

impl Model for Circuit {
    ghost use Rattle.heco_circuit.specs.Plans.{Plan};
    ghost use Rattle.heco_circuit.specs.Circuits.{IsCircuit};
    ghost use Rattle.heco_circuit.specs.CircuitFormat.{plan_with};

    ghost Value = { Plan };

    ghost view = { λ c. plan_with c.preset.id c.inputs c.vectors c.gates c.outputs };

    ghost invariant = { λ c. IsCircuit (plan_with c.preset.id c.inputs c.vectors c.gates c.outputs) };
}

// The gates, and no vectors: an empty list needs an allocator, but no memory.
fn with_no_vectors(gates: List<Gate>) -> (List<Gate>, List<List<u32>>)
    ensures gates { result.0 ≡ gates }
    ensures vectors { result.1 ≡ [] }
{
    let items = gates.into_vec();
    let vectors = List::new(*items.allocator());
    (List::from_vec(items), vectors)
}

impl Circuit {
    ghost use Rattle.heco_circuit.specs.CircuitFormat.{plan, plan_with};

    /// The circuit of these inputs, plain vectors, gates and outputs under a preset, which together are valid.
    pub fn make_with(
        p: &Preset,
        inputs: List<Shape>,
        vectors: List<List<u32>>,
        gates: List<Gate>,
        outputs: List<Output>,
    ) -> Circuit
        requires { IsCircuit (plan_with p.now.id inputs vectors gates outputs) }
        ensures { result ≡ plan_with p.now.id inputs vectors gates outputs }
    {
        Circuit {
            preset: *p,
            inputs,
            vectors,
            gates,
            outputs,
        }
    }

    /// The same without vectors.
    pub fn make(
        p: &Preset,
        inputs: List<Shape>,
        gates: List<Gate>,
        outputs: List<Output>,
    ) -> Circuit
        requires { IsCircuit (plan p.now.id inputs gates outputs) }
        ensures { result ≡ plan p.now.id inputs gates outputs }
    {
        let (gates, vectors) = with_no_vectors(gates);
        Circuit::make_with(p, inputs, vectors, gates, outputs)
    }

    /// The parameters that it is for.
    #[tactic(auto, using(heco_nums::proofs::OnePreset::preset_is))]
    pub fn preset(&self) -> &Preset
        ensures preset { result.now.id ≡ self.now.preset }
        ensures whole { result.now ≡ preset_of self.now.preset }
        ensures valid { IsCircuit self.now }
    {
        &self.preset
    }

    /// The inputs, which are its first wires.
    pub fn inputs(&self) -> &List<Shape>
        ensures { result.now ≡ self.now.inputs }
    {
        &self.inputs
    }

    /// The plain vectors that gates weigh by, N numbers below t each.
    pub fn vectors(&self) -> &List<List<u32>>
        ensures { result.now ≡ self.now.vectors }
    {
        &self.vectors
    }

    /// The gates, each of which gives the next wire.
    pub fn gates(&self) -> &List<Gate>
        ensures { result.now ≡ self.now.gates }
    {
        &self.gates
    }

    /// The outputs, each of numbers and slots of wires.
    pub fn outputs(&self) -> &List<Output>
        ensures { result.now ≡ self.now.outputs }
    {
        &self.outputs
    }
}
