ghost use Rattle.std.specs.Prelude.{◌≡◌, IfOk, length};
ghost use Rattle.heco_sources.specs.Inputs.{output_shapes};
ghost use Rattle.heco_texts.specs.Outputs.{output_text};
ghost use Rattle.heco_jobs.specs.Agents.{Agents};
ghost use Rattle.heco_jobs.specs.Products.{Prints};
ghost use Rattle.heco_jobs.specs.Stages.{Settles, IsDecided, IsGathered};
ghost use Rattle.heco_jobs.specs.Words.{texts};
ghost use Rattle.heco_tasks.specs.Executions.{AreOutputs, IsExecutionRefusal, execution_answer};
ghost use Rattle.heco_tasks.specs.SourceTasks.{plain_plan, plain_job, outputs_job};

use heco_eval::{EvalErr, plain};
use heco_files::print_outputs;
use heco_jobs::{Outcome, Product, Refusal, printing};
use heco_nums::{Inputs, Memory, Outputs};
use heco_outside::Store;
use heco_reads::{read_source, read_values_file};
use heco_types::Typed;
use std::alloc::Global;

fn answer(error: EvalErr) -> Outcome
    ensures { result ≡ execution_answer error }
{
    match error {
        EvalErr::At { rule, at } => Outcome::Refused(Refusal::At { rule, at }),
        EvalErr::Memory => Outcome::Memory,
    }
}

// The lists that the execution gives, or the first rule of execution that it breaks.
fn executed(alloc: Global, typed: &Typed, inputs: &Inputs) -> Result<Outputs, Outcome>
    ensures settled { Settles (AreOutputs typed.now inputs.now.rows) (IsExecutionRefusal typed.now inputs.now.rows) result }
    ensures count { IfOk result (λ out. length out.rows ≡ length (output_shapes typed.now)) }
{
    match plain(alloc, typed, inputs) {
        Ok(outputs) => Ok(outputs),
        Err(error) => Err(answer(error)),
    }
}

// What is printed of these lists.
fn printed(alloc: Global, typed: &Typed, outputs: &Outputs) -> Result<Product, Memory>
    requires { length outputs.now.rows ≡ length (output_shapes typed.now) }
    ensures { IfOk result (Prints (output_text (output_shapes typed.now) outputs.now.rows)) }
{
    let text = print_outputs(alloc, typed.outputs(), outputs)?;
    Ok(printing(alloc, text))
}

// All behind the files.
fn give_outputs(alloc: Global, typed: &Typed, inputs: &Inputs) -> Result<Product, Outcome>
    ensures { (agents : Agents) → IsDecided plain_plan (outputs_job agents typed.now inputs.now) agents result }
{
    let outputs = executed(alloc, typed, inputs)?;
    let product = printed(alloc, typed, &outputs)?;
    Ok(product)
}

/// All that `plain` gives, or why it ends before.
pub fn gather_plain<S: Store>(
    alloc: Global,
    words: &[String],
    store: &mut S,
) -> Result<Product, Outcome>
    ensures { (agents : Agents) → IsGathered S.Store (texts words.now) plain_plan (plain_job agents) agents store.old store.new result }
{
    let typed = read_source(alloc, words, 1, store)?;
    let inputs = read_values_file(alloc, &typed, words, 2, store)?;
    give_outputs(alloc, &typed, &inputs)
}
