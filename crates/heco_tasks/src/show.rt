ghost use Rattle.heco_jobs.specs.Agents.{Agents};
ghost use Rattle.heco_jobs.specs.Stages.{IsDecided, IsGathered};
ghost use Rattle.heco_jobs.specs.Words.{texts};
ghost use Rattle.heco_tasks.specs.CircuitTasks.{show_plan, show_job, shown_job};

use heco_circuit::Circuit;
use heco_jobs::{Outcome, Product, printing};
use heco_listing::listing;
use heco_outside::Store;
use heco_reads::read_circuit;
use std::alloc::Global;

// The listing of the circuit.
fn give_listing(alloc: Global, circuit: &Circuit) -> Result<Product, Outcome>
    ensures { (agents : Agents) → IsDecided show_plan (shown_job agents circuit.now) agents result }
{
    let text = listing(alloc, circuit)?;
    Ok(printing(alloc, text))
}

/// All that `show` gives, or why it ends before.
pub fn gather_show<S: Store>(
    alloc: Global,
    words: &[String],
    store: &mut S,
) -> Result<Product, Outcome>
    ensures { (agents : Agents) → IsGathered S.Store (texts words.now) show_plan (show_job agents) agents store.old store.new result }
{
    let circuit = read_circuit(alloc, words, 1, store)?;
    give_listing(alloc, &circuit)
}
