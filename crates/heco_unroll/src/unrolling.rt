ghost use Rattle.std.specs.Prelude.{◌≡◌, ◌^◌, ◌<◌, ◌≤◌, false, length, map, IfOk, IfErr, Ok};
ghost use Rattle.std.specs.List.{All};
ghost use Rattle.heco_execution.specs.Laws.{input_lengths, source_terms};
ghost use Rattle.heco_execution.specs.Outcomes.{Refuses};
ghost use Rattle.heco_ir.specs.Terms.{scalar_terms};
ghost use Rattle.heco_types.specs.Presets.{slots_named};
ghost use Rattle.heco_ir.specs.Unrolled.{AllMade, AllElementsBelow, operations, root_terms};
ghost use Rattle.heco_types.specs.Shapes.{shapes_of};
ghost use Rattle.heco_eval.specs.Typed.{modulus_named};
ghost use Rattle.heco_unroll.specs.Unrolling.{element_terms, element_count};

use crate::elements::element_rows;
use crate::nodes::Nodes;
use crate::roots::root_nodes;
use bumpalo::Bump;
use heco_execution::{EvalErr, Numbers, Progress, execute};
use heco_ir::{Builder, Ir, Scalar};
use heco_nums::{Preset, Shape};
use heco_syntax::Source;
use heco_types::Typed;
use std::alloc::Global;

fn modulus(p: &Preset) -> u32
    ensures value { result ≡ p.now.t }
    ensures positive { 0 < result }
{
    p.t
}

/// Executes a source on scalar nodes: one root for each output element, in order.
fn unroll_source<'b>(
    alloc: Global,
    p: &Preset,
    source: &Source,
    inputs: &[Shape],
    b: &'b Bump,
) -> Result<Ir<'b, Scalar>, EvalErr>
    requires lengths { map (λ s. s.len) inputs.now ≡ input_lengths source.now.ports }
    requires few { length inputs.now ≤ 256 }
    requires short { All (λ s. s.len ≤ p.now.slots) inputs.now }
    ensures terms { IfOk result (λ ir. element_terms p.now.t source.now ≡ Ok (root_terms ir.0 ir.1)) }
    ensures err { IfErr result (λ e. Refuses e (source_terms p.now.t source.now)) }
    ensures made { IfOk result (λ ir. AllMade p.now.t p.now.slots (scalar_terms ir.0)) }
    ensures elements { IfOk result (λ ir. AllElementsBelow (length inputs.now) ir.0) }
    ensures operations { IfOk result (λ ir. operations ir.0 ≤ 524288) }
{
    let mut nodes = Builder::<Scalar>::open(b);
    let rows = element_rows(alloc, inputs, &mut nodes)?;
    let m = Nodes {
        numbers: Numbers { t: modulus(p) },
        arena: b,
    };
    let mut progress = Progress {
        steps: 0,
        store: nodes,
    };
    let outputs = execute(alloc, &m, source, rows.as_slice(), &mut progress)?;
    let Progress { store, .. } = progress;
    let mut nodes = store;
    let roots = root_nodes(alloc, outputs.as_slice(), &mut nodes)?;
    Ok(nodes.finish(roots))
}

/// Executes a typed source on scalar nodes: one root for each output element, in order, whose term is that of the
/// element; or the first rule of execution that it breaks.
pub fn unroll<'b>(alloc: Global, t: &Typed, b: &'b Bump) -> Result<Ir<'b, Scalar>, EvalErr>
    ensures terms { IfOk result (λ ir. element_terms (modulus_named t.now.params.text) t.now ≡ Ok (root_terms ir.0 ir.1)) }
    ensures count { IfOk result (λ ir. length ir.1 ≡ element_count t.now) }
    ensures roots { IfOk result (λ ir. length ir.1 ≤ 2 ^ 20) }
    ensures err { IfErr result (λ e. Refuses e (source_terms (modulus_named t.now.params.text) t.now)) }
    ensures made { IfOk result (λ ir. AllMade (modulus_named t.now.params.text) (slots_named t.now.params.text) (scalar_terms ir.0)) }
    ensures inputs { IfOk result (λ ir. AllElementsBelow (length (shapes_of false t.now.ports)) ir.0) }
    ensures few_inputs { IfOk result (λ ir. AllElementsBelow 256 ir.0) }
    ensures operations { IfOk result (λ ir. operations ir.0 ≤ 524288) }
{
    // Each output has at most 4,096 elements.
    let _valid = t.outputs();
    let ir = unroll_source(alloc, t.preset(), t.source(), t.inputs().as_slice(), b)?;
    Ok(ir)
}
