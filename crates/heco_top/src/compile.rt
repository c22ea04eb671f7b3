ghost use Rattle.std.specs.Prelude.{◌≡◌, IfOk, IfErr, map};
ghost use Rattle.heco_good.specs.Accepted.{IsAccepted};
ghost use Rattle.heco_good.specs.Compiled.{IsPassedOf};
ghost use Rattle.heco_jobs.specs.Agents.{Picking, agents};
ghost use Rattle.heco_jobs.specs.Laws.{IsLeft};
ghost use Rattle.heco_jobs.specs.Stages.{Settles, came, IsDecided, IsGathered};
ghost use Rattle.heco_jobs.specs.Words.{texts};
ghost use Rattle.heco_reads.specs.SourceFiles.{HasText};
ghost use Rattle.heco_tasks.specs.Executions.{IsCompileRefusal};
ghost use Rattle.heco_tasks.specs.SourceTasks.{compile_plan, compile_job, accepted_job};

use heco_circuit::Circuit;
use heco_good::passed_circuits_are_good;
use heco_jobs::{Outcome, Product};
use heco_outside::Store;
use heco_peep::{Pass, run_passes};
use heco_reads::read_source;
use heco_tasks::{compile_product, compiled};
use heco_types::Typed;
use std::alloc::Global;

/// What the passes make of the circuit that the source is compiled to, or why it has none. A refusal leaves the passes.
pub fn passed(
    alloc: Global,
    typed: &Typed,
    passes: &mut Vec<Box<dyn Pass>>,
) -> Result<Circuit, Outcome>
    requires { HasText typed.now }
    ensures settled { Settles (λ _. IsAccepted typed.now) (IsCompileRefusal typed.now) (came result) }
    ensures circuit { IfOk result (λ c. IsPassedOf typed.now (map (λ b. handed b) passes.old.items) c (map (λ b. handed b) passes.new.items)) }
    ensures rules { map (λ b. (handed b).rule) passes.new.items ≡ map (λ b. (handed b).rule) passes.old.items }
    ensures left { IfErr result (λ outcome. IsLeft outcome passes.old passes.new) }
{
    let circuit = compiled(alloc, typed)?;
    passed_circuits_are_good();
    Ok(run_passes(alloc, circuit, passes)?)
}

// All behind the source.
fn give_circuit(
    alloc: Global,
    typed: &Typed,
    passes: &mut Vec<Box<dyn Pass>>,
) -> Result<Product, Outcome>
    requires { HasText typed.now }
    ensures decided { (picker : Picking) → IsDecided compile_plan (accepted_job (agents picker (map (λ b. handed b) passes.old.items)) typed.now)
        (agents picker (map (λ b. handed b) passes.new.items)) result }
    ensures rules { map (λ b. (handed b).rule) passes.new.items ≡ map (λ b. (handed b).rule) passes.old.items }
    ensures left { IfErr result (λ outcome. IsLeft outcome passes.old passes.new) }
{
    let circuit = passed(alloc, typed, passes)?;
    let product = compile_product(alloc, &circuit)?;
    Ok(product)
}

/// All that `compile` gives, or why it ends before.
pub fn gather_compile<S: Store>(
    alloc: Global,
    words: &[String],
    store: &mut S,
    passes: &mut Vec<Box<dyn Pass>>,
) -> Result<Product, Outcome>
    ensures gathered { (picker : Picking) → IsGathered S.Store (texts words.now) compile_plan (compile_job (agents picker (map (λ b. handed b) passes.old.items)))
        (agents picker (map (λ b. handed b) passes.new.items)) store.old store.new result }
    ensures rules { map (λ b. (handed b).rule) passes.new.items ≡ map (λ b. (handed b).rule) passes.old.items }
    ensures left { IfErr result (λ outcome. IsLeft outcome passes.old passes.new) }
{
    let typed = read_source(alloc, words, 1, store)?;
    give_circuit(alloc, &typed, passes)
}
