ghost use Rattle.std.specs.Prelude.{◌≡◌, IfErr, map};
ghost use Rattle.heco_jobs.specs.Agents.{agents, picking};
ghost use Rattle.heco_jobs.specs.Laws.{IsLeft};
ghost use Rattle.heco_jobs.specs.Stages.{IsGathered};
ghost use Rattle.heco_jobs.specs.Words.{texts};
ghost use Rattle.heco_sample.specs.SampleTask.{sample_plan, sample_job};

use heco_jobs::{Outcome, Product};
use heco_outside::Store;
use heco_peep::Pass;
use heco_sample::sample_product;
use heco_sched::Picker;
use std::alloc::Global;

/// All that `sample` gives for the seed. It reads no file, and nothing refuses it.
pub fn gather_sample<S: Store>(
    alloc: Global,
    seed: u64,
    _words: &[String],
    _store: &mut S,
    picker: &mut Box<dyn Picker>,
    passes: &mut Vec<Box<dyn Pass>>,
) -> Result<Product, Outcome>
    ensures gathered { IsGathered S.Store (texts _words.now) sample_plan
        (sample_job (agents (picking (rule picker.old) (state picker.old)) (map (λ b. handed b) passes.old.items)) seed)
        (agents (picking (rule picker.new) (state picker.new)) (map (λ b. handed b) passes.new.items)) _store.old _store.new result }
    ensures rule { rule picker.new ≡ rule picker.old }
    ensures rules { map (λ b. (handed b).rule) passes.new.items ≡ map (λ b. (handed b).rule) passes.old.items }
    ensures left { IfErr result (λ outcome. IsLeft outcome picker.old picker.new) }
{
    let product = sample_product(alloc, seed, picker, passes)?;
    Ok(product)
}
