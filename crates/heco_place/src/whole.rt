ghost use Rattle.std.specs.Prelude.{◌≡◌, ◌≤◌, ◌<◌, ◌^◌, ℕ, List as Seq, IsTrue, length, map, IfOk};
ghost use Rattle.heco_written.specs.Bound.{scheme_of};
ghost use Rattle.heco_ir.specs.Ranges.{gates_of_nodes};
ghost use Rattle.heco_ir.specs.Vectors.{vector_operands};
ghost use Rattle.heco_ir.specs.Used.{EachOnce, AllUsed};
ghost use Rattle.heco_ir.specs.Terms.{terms_at};
ghost use Rattle.heco_place.specs.Fitting.{AllFit, AllNarrow, AreHomes};
ghost use Rattle.heco_place.specs.Ports.{ArePorts};
ghost use Rattle.heco_place.specs.Refusals.{HasCause};
ghost use Rattle.heco_place.specs.NodeHomes.{homes_over};
ghost use Rattle.heco_place.specs.Kinds.{AreFewer};
ghost use Rattle.heco_thrift.specs.Placed.{IsPlaced};
ghost use Rattle.heco_ir.specs.Terms.{vector_terms};

use crate::chosen::chosen_gates;
use crate::depths::depths_of;
use crate::error::PlaceErr;
use crate::outputs::{copied, outputs_of};
use crate::refusal::{element_of, first_deep};
use heco_circuit::Circuit;
use heco_ir::{Homes, Ir, Vector};
use heco_nums::{Preset, Shape};
use std::alloc::Global;

/// Refuses the first output element whose term is too deep.
fn judge(
    alloc: Global,
    ir: &Ir<'_, Vector>,
    homes: &Homes,
    p: &Preset,
    outputs: &[Shape],
) -> Result<(), PlaceErr>
    requires fit { AllNarrow p.now.t ir.now.0 }
    requires homes { AreHomes p.now.slots p.now.t (length ir.now.1) outputs.now homes.now }
    requires few { length outputs.now ≤ 256 }
    requires short { length homes.now ≤ 2 ^ 20 }
    ensures { HasCause (scheme_of p.now.id) (terms_at ir.now.0 ir.now.1) homes.now outputs.now result }
{
    let depths = depths_of(alloc, ir, p)?;
    match first_deep(depths.as_slice(), ir.roots().as_slice(), homes.as_slice()) {
        Some((number, bound)) => {
            let (out, index) = element_of(outputs, number);
            Err(PlaceErr::TooDeep { out, index, bound })
        }
        None => Ok(()),
    }
}

/// The circuit of the outputs that have these homes, each of its nodes placed once.
pub fn place(
    alloc: Global,
    ir: &Ir<'_, Vector>,
    homes: &Homes,
    p: &Preset,
    inputs: &[Shape],
    outputs: &[Shape],
) -> Result<Circuit, PlaceErr>
    requires ports { ArePorts p.now.slots inputs.now outputs.now }
    requires fit { AllFit (length inputs.now) p.now.slots p.now.t ir.now.0 }
    requires once { EachOnce ir.now.0 }
    requires used { AllUsed vector_operands ir.now.0 ir.now.1 }
    requires gates { gates_of_nodes ir.now.0 ≤ 20447232 }
    requires homes { AreHomes p.now.slots p.now.t (length ir.now.1) outputs.now homes.now }
    ensures cause { HasCause (scheme_of p.now.id) (terms_at ir.now.0 ir.now.1) homes.now outputs.now result }
    ensures placed { IfOk result (λ c. IsPlaced p.now.id inputs.now outputs.now (homes_over (terms_at ir.now.0 ir.now.1) homes.now) c) }
    ensures fewer { IfOk result (λ c. AreFewer (vector_terms ir.now.0) (terms_at ir.now.0 ir.now.1) c.gates) }
{
    judge(alloc, ir, homes, p, outputs)?;
    let (gates, carriers) = chosen_gates(alloc, ir, inputs.len() as u32)?;
    let outputs = outputs_of(
        alloc,
        carriers.as_slice(),
        ir.roots().as_slice(),
        outputs,
        homes.as_slice(),
    )?;
    Ok(Circuit::make(p, copied(alloc, inputs)?, gates, outputs))
}
