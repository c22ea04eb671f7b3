ghost use Rattle.std.specs.Prelude.{◌≡◌, IfOk};
ghost use Rattle.heco_meaning.specs.Meanings.{meaning_of};

use crate::cells::rows_of;
use crate::wires::{all_wires, first_wires};
use heco_circuit::Circuit;
use heco_nums::{Inputs, Memory, Outputs};
use std::alloc::Global;

/// The values of the outputs for these values of the inputs, a row each.
#[tactic(auto, unfolding(crate::specs::Meanings::meaning_of))]
pub fn meaning(alloc: Global, c: &Circuit, inputs: &Inputs) -> Result<Outputs, Memory>
    ensures { IfOk result (λ outputs. outputs.rows ≡ meaning_of c.now inputs.now.rows) }
{
    let preset = c.preset();
    let first = first_wires(alloc, preset.slots, inputs.rows.as_slice())?;
    let vectors = c.vectors().as_slice();
    let wires = all_wires(alloc, preset.t, vectors, first, c.gates().as_slice())?;
    let rows = rows_of(alloc, wires.as_slice(), c.outputs().as_slice())?;
    Ok(Outputs { rows })
}
