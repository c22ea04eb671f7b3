ghost use Rattle.std.specs.Prelude.{◌≡◌, IfErr, List, length};
ghost use Rattle.heco_key_files.specs.KeyFiles.{lists_of};
ghost use Rattle.heco_jobs.specs.Agents.{agents, picking};
ghost use Rattle.heco_jobs.specs.Laws.{IsLeft};
ghost use Rattle.heco_jobs.specs.Stages.{IsGathered};
ghost use Rattle.heco_jobs.specs.Words.{texts};
ghost use Rattle.heco_peep.specs.Rules.{Handed};
ghost use Rattle.heco_tasks.specs.CircuitTasks.{run_plan, run_job, run_key_job, served_job, ciphertexts_job};
ghost use Rattle.heco_tasks.specs.Running.{HasKeys};

use heco_circuit::Circuit;
use heco_files::FileKind;
use heco_jobs::{Outcome, Product};
use heco_keys::Eval;
use heco_nums::Preset;
use heco_outside::Store;
use heco_reads::{read_ciphertexts, read_circuit, read_evaluation};
use heco_sched::Picker;
use heco_tasks::{input_count, judge_keys, run_product};
use std::alloc::Global;

// All behind the judged key.
fn gather_inputs<S: Store>(
    alloc: Global,
    circuit: &Circuit,
    key: &Eval,
    words: &[String],
    store: &mut S,
    picker: &mut Box<dyn Picker>,
) -> Result<Product, Outcome>
    requires preset { key.now.preset.id ≡ circuit.now.preset }
    requires keys { HasKeys circuit.now (lists_of key.now) }
    ensures gathered { (passes : List Handed) → IsGathered S.Store (texts words.now) run_plan
        (ciphertexts_job (agents (picking (rule picker.old) (state picker.old)) passes) key.now.preset circuit.now (lists_of key.now))
        (agents (picking (rule picker.new) (state picker.new)) passes) store.old store.new result }
    ensures rule { rule picker.new ≡ rule picker.old }
    ensures left { IfErr result (λ outcome. IsLeft outcome picker.old picker.new) }
{
    let count = input_count(circuit);
    let inputs = read_ciphertexts(alloc, FileKind::Cts, key.preset(), count, words, 3, store)?;
    let product = run_product(alloc, circuit, key, inputs, picker)?;
    Ok(product)
}

// All behind the evaluation key.
fn gather_served<S: Store>(
    alloc: Global,
    circuit: &Circuit,
    key: &Eval,
    words: &[String],
    store: &mut S,
    picker: &mut Box<dyn Picker>,
) -> Result<Product, Outcome>
    requires { key.now.preset.id ≡ circuit.now.preset }
    ensures gathered { (passes : List Handed) → IsGathered S.Store (texts words.now) run_plan
        (served_job (agents (picking (rule picker.old) (state picker.old)) passes) key.now.preset circuit.now (lists_of key.now))
        (agents (picking (rule picker.new) (state picker.new)) passes) store.old store.new result }
    ensures rule { rule picker.new ≡ rule picker.old }
    ensures left { IfErr result (λ outcome. IsLeft outcome picker.old picker.new) }
{
    judge_keys(alloc, circuit, key)?;
    gather_inputs(alloc, circuit, key, words, store, picker)
}

// All behind the circuit, whose preset this is.
fn gather_key<S: Store>(
    alloc: Global,
    preset: &Preset,
    circuit: &Circuit,
    words: &[String],
    store: &mut S,
    picker: &mut Box<dyn Picker>,
) -> Result<Product, Outcome>
    requires { preset.now.id ≡ circuit.now.preset }
    ensures gathered { (passes : List Handed) → IsGathered S.Store (texts words.now) run_plan
        (run_key_job (agents (picking (rule picker.old) (state picker.old)) passes) preset.now circuit.now)
        (agents (picking (rule picker.new) (state picker.new)) passes) store.old store.new result }
    ensures rule { rule picker.new ≡ rule picker.old }
    ensures left { IfErr result (λ outcome. IsLeft outcome picker.old picker.new) }
{
    let key = read_evaluation(alloc, preset, words, 2, store)?;
    gather_served(alloc, circuit, &key, words, store, picker)
}

/// All that `run` gives, or why it ends before. The picker is asked only once all files were read and judged.
pub fn gather_run<S: Store>(
    alloc: Global,
    words: &[String],
    store: &mut S,
    picker: &mut Box<dyn Picker>,
) -> Result<Product, Outcome>
    ensures gathered { (passes : List Handed) → IsGathered S.Store (texts words.now) run_plan
        (run_job (agents (picking (rule picker.old) (state picker.old)) passes))
        (agents (picking (rule picker.new) (state picker.new)) passes) store.old store.new result }
    ensures rule { rule picker.new ≡ rule picker.old }
    ensures left { IfErr result (λ outcome. IsLeft outcome picker.old picker.new) }
{
    let circuit = read_circuit(alloc, words, 1, store)?;
    gather_key(alloc, circuit.preset(), &circuit, words, store, picker)
}
