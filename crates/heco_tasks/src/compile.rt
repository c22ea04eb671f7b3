ghost use Rattle.std.specs.Prelude.{◌≡◌, ◌∷◌, [], ℕ, List, IfOk};
ghost use Rattle.heco_circuit.specs.CircuitFormat.{circuit_text};
ghost use Rattle.heco_good.specs.Accepted.{IsAccepted};
ghost use Rattle.heco_good.specs.Compiled.{IsCircuitOf};
ghost use Rattle.heco_jobs.specs.Products.{Stores, planned};
ghost use Rattle.heco_jobs.specs.Stages.{Settles, came};
ghost use Rattle.heco_peep.specs.NoWorse.{HasFewBytes};
ghost use Rattle.heco_sources.specs.Sources.{IsSource};
ghost use Rattle.heco_tasks.specs.Executions.{IsCompileRefusal, compile_answer};

use heco_circuit::{Circuit, write};
use heco_compile::{CompileErr, compile_typed};
use heco_jobs::{Outcome, Product, Refusal, storing};
use heco_nums::Memory;
use heco_types::Typed;
use std::alloc::Global;

fn answer(error: CompileErr) -> Outcome
    ensures { result ≡ compile_answer error }
{
    match error {
        CompileErr::SourceLong => Outcome::Refused(Refusal::SourceLong),
        CompileErr::At { rule, at } => Outcome::Refused(Refusal::At { rule, at }),
        CompileErr::TooDeep { out, index, bound } => {
            Outcome::Refused(Refusal::TooDeep { out, index, bound })
        }
        CompileErr::Memory => Outcome::Memory,
    }
}

/// The circuit that the source is compiled to, or why it has none.
pub fn compiled(alloc: Global, typed: &Typed) -> Result<Circuit, Outcome>
    ensures settled { Settles (λ _. IsAccepted typed.now) (IsCompileRefusal typed.now) (came result) }
    ensures circuit { IfOk result (λ c. IsCircuitOf typed.now c) }
    ensures short { (text : List ℕ) → IsSource text typed.now → IfOk result (λ c. HasFewBytes c) }
{
    match compile_typed(alloc, typed) {
        Ok(circuit) => Ok(circuit),
        Err(error) => Err(answer(error)),
    }
}

/// The file of the circuit.
pub fn compile_product(alloc: Global, circuit: &Circuit) -> Result<Product, Memory>
    ensures { IfOk result (Stores (planned 2 (circuit_text circuit.now) ∷ [])) }
{
    let bytes = write(alloc, circuit)?;
    storing(alloc, 2, bytes)
}
