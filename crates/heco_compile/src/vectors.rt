ghost use Rattle.std.specs.Prelude.{IfOk, IfErr};
ghost use Rattle.heco_execution.specs.Laws.{source_terms};
ghost use Rattle.heco_execution.specs.Outcomes.{Refuses};
ghost use Rattle.heco_good.specs.Good.{modulus};
ghost use Rattle.heco_compile.specs.inside.Vectors.{AreVectors};

use bumpalo::Bump;
use heco_batch::batch;
use heco_execution::EvalErr;
use heco_ir::{Homes, Ir, Vector};
use heco_types::Typed;
use heco_unroll::unroll;
use std::alloc::Global;

/// The vectors of a typed source's output elements, in the second arena, and where each element is. The scalar nodes
/// stand in the first, and are gone with the call.
pub fn vectors_of<'b>(
    alloc: Global,
    t: &Typed,
    first: &Bump,
    second: &'b Bump,
) -> Result<(Ir<'b, Vector>, Homes), EvalErr>
    ensures vectors { IfOk result (λ r. AreVectors t.now r.0.0 r.0.1 r.1) }
    ensures err { IfErr result (λ e. Refuses e (source_terms (modulus t.now) t.now)) }
{
    let _valid = t.source();
    let preset = t.preset();
    let ir = unroll(alloc, t, first)?;
    let batched = batch(alloc, &ir, preset, second)?;
    Ok(batched)
}
