ghost use Rattle.std.specs.Prelude.{◌≡◌, ◌<◌, IfOk, IfErr, Ok, true, length};
ghost use Rattle.heco_execution.specs.Outcomes.{Refuses};
ghost use Rattle.heco_types.specs.Shapes.{shapes_of};
ghost use Rattle.heco_eval.specs.Typed.{modulus_named, outputs_of};

use heco_execution::{EvalErr, Numbers};
use heco_nums::{Inputs, Outputs};
use heco_types::Typed;
use std::alloc::Global;

fn modulus(t: &Typed) -> u32
    ensures value { result ≡ modulus_named t.now.params.text }
    ensures positive { 0 < result }
{
    t.preset().t
}

/// Executes a typed source on the values of its inputs: the values of its outputs, or the first rule of execution that
/// it breaks: IndexRange, PublicRange or TooLarge.
pub fn plain(alloc: Global, t: &Typed, i: &Inputs) -> Result<Outputs, EvalErr>
    ensures ok { IfOk result (λ out. outputs_of t.now i.now.rows ≡ Ok out.rows) }
    ensures count { IfOk result (λ out. length out.rows ≡ length (shapes_of true t.now.ports)) }
    ensures err { IfErr result (λ e. Refuses e (outputs_of t.now i.now.rows)) }
{
    let numbers = Numbers { t: modulus(t) };
    heco_execution::plain(alloc, numbers, t.source(), i)
}
