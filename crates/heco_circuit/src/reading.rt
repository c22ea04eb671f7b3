ghost use Rattle.std.specs.Prelude.{◌≡◌, ◌≤◌, ℕ, List, IsTrue, length, take, drop};
ghost use Rattle.std.specs.Result.{result_map_both};
ghost use Rattle.heco_circuit.specs.declared.error.CirErr.TheVariants.{Malformed, Noisy};
ghost use Rattle.heco_fields.specs.Readings.{judged, reading};
ghost use Rattle.heco_circuit.specs.Plans.{Plan};
ghost use Rattle.heco_circuit.specs.CircuitFormat.{plan_with, circuit};
ghost use Rattle.heco_circuit.specs.Circuits.{IsCircuit, most};
ghost use Rattle.heco_circuit.specs.CircuitFile.{FileBreaksAt, IsNoisyFile, Spells, HasCause, Answers, Drafts, judged_file, answer_to, read_as};

use crate::circuit::Circuit;
use crate::draft::{Draft, draft_at};
use crate::error::CirErr;
use crate::quiet::{Noise, noise_of};
use heco_fields::Fault;
use std::alloc::Global;

// Fields stand within the first so many bytes.
const MOST: usize = (1 << 29) - 1;

fn cut(bytes: &[u8]) -> (&[u8], &[u8])
    ensures head { result.0.now ≡ take most bytes.now }
    ensures short { length result.0.now ≤ most }
    ensures beyond { result.1.now ≡ drop most bytes.now }
{
    if bytes.len() > MOST {
        bytes.split_at(MOST)
    } else {
        bytes.split_at(bytes.len())
    }
}

fn draft_within(alloc: Global, head: &[u8], beyond: &[u8]) -> Result<Draft, CirErr>
    requires { length head.now ≤ most }
    ensures { Drafts (result_map_both (λ d. plan_with d.preset.id d.inputs d.vectors d.gates d.outputs) (λ e. e) result) (judged head.now beyond.now (reading circuit head.now)) }
{
    match draft_at(alloc, head) {
        Ok((draft, rest)) => {
            if rest.len() > 0 || beyond.len() > 0 {
                return Err(CirErr::Malformed {
                    at: (head.len() as u64).saturating_sub(rest.len() as u64),
                });
            }
            Ok(draft)
        }
        Err(Fault::Broken { left }) => Err(CirErr::Malformed {
            at: (head.len() as u64).saturating_sub(left),
        }),
        Err(Fault::Memory) => Err(CirErr::Memory),
    }
}

fn draft_of(alloc: Global, bytes: &[u8]) -> Result<Draft, CirErr>
    ensures { Drafts (result_map_both (λ d. plan_with d.preset.id d.inputs d.vectors d.gates d.outputs) (λ e. e) result) (judged_file bytes.now) }
{
    let (head, beyond) = cut(bytes);
    draft_within(alloc, head, beyond)
}

fn circuit_of(draft: Draft) -> Circuit
    requires { IsCircuit (plan_with draft.preset.id draft.inputs draft.vectors draft.gates draft.outputs) }
    ensures { result ≡ plan_with draft.preset.id draft.inputs draft.vectors draft.gates draft.outputs }
{
    let Draft {
        preset,
        inputs,
        vectors,
        gates,
        outputs,
    } = draft;
    Circuit::make_with(&preset, inputs, vectors, gates, outputs)
}

fn read_exactly(alloc: Global, bytes: &[u8]) -> Result<Circuit, CirErr>
    ensures { Answers result (answer_to (judged_file bytes.now)) }
{
    let draft = draft_of(alloc, bytes)?;
    match noise_of(
        alloc,
        &draft.preset,
        draft.inputs.as_slice(),
        draft.vectors.as_slice(),
        draft.gates.as_slice(),
    )? {
        Noise::Passing { gate, bound } => Err(CirErr::Noisy { gate, bound }),
        Noise::Quiet(_) => Ok(circuit_of(draft)),
    }
}

/// The circuit that the file spells.
#[tactic(auto, unfolding(crate::specs::CircuitFile::read_as))]
pub fn read(alloc: Global, bytes: &[u8]) -> Result<Circuit, CirErr>
    ensures exact { Answers result (read_as bytes.now) }
    ensures cause { HasCause bytes.now result }
    ensures only { (p : Plan) → Spells bytes.now p → Answers result (Ok p) }
    ensures malformed { (at : ℕ) → FileBreaksAt bytes.now at → Answers result (Err (Malformed at)) }
    ensures noisy { (gate bound : ℕ) → IsNoisyFile bytes.now gate bound → Answers result (Err (Noisy gate bound)) }
{
    read_exactly(alloc, bytes)
}
