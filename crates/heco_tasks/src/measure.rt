ghost use Rattle.std.specs.Prelude.{◌≡◌, IfOk, length};
ghost use Rattle.heco_ciphertext_files.specs.CiphertextFiles.{AreCiphertexts};
ghost use Rattle.heco_key_files.specs.KeyFiles.{lists_of};
ghost use Rattle.heco_jobs.specs.Agents.{Agents};
ghost use Rattle.heco_jobs.specs.Products.{Prints};
ghost use Rattle.heco_jobs.specs.Stages.{IsGathered};
ghost use Rattle.heco_jobs.specs.Words.{texts};
ghost use Rattle.heco_tasks.specs.MeasureTask.{measure_plan, measure_job, measured_secret_job, measured_key_job, measured_served_job, noise_job, noise_text};
ghost use Rattle.heco_tasks.specs.Running.{HasKeys};

use crate::circuits::input_count;
use crate::running::judge_keys;
use heco_bfv::Ct;
use heco_circuit::Circuit;
use heco_files::FileKind;
use heco_jobs::{Outcome, Product, printing};
use heco_keys::{Eval, Secret};
use heco_measure::{measure, measured_text};
use heco_nums::{Memory, Preset};
use heco_outside::Store;
use heco_reads::{read_ciphertexts, read_circuit, read_evaluation, read_secret};
use std::alloc::Global;

// The text of what is measured.
fn measure_product(
    alloc: Global,
    circuit: &Circuit,
    secret: &Secret,
    key: &Eval,
    inputs: &[Ct],
) -> Result<Product, Memory>
    requires number { key.now.preset.id ≡ circuit.now.preset }
    requires secret { secret.now.preset ≡ key.now.preset }
    requires keys { HasKeys circuit.now (lists_of key.now) }
    requires inputs { AreCiphertexts key.now.preset.n (length circuit.now.inputs) inputs.now }
    ensures { IfOk result (Prints (noise_text key.now.preset circuit.now secret.now.places (lists_of key.now) inputs.now)) }
{
    let list = measure(alloc, circuit, secret, key, inputs)?;
    let text = measured_text(alloc, list.as_slice())?;
    Ok(printing(alloc, text))
}

// All behind the judged key.
fn gather_inputs<S: Store>(
    alloc: Global,
    circuit: &Circuit,
    secret: &Secret,
    key: &Eval,
    words: &[String],
    store: &mut S,
) -> Result<Product, Outcome>
    requires number { key.now.preset.id ≡ circuit.now.preset }
    requires secret { secret.now.preset ≡ key.now.preset }
    requires keys { HasKeys circuit.now (lists_of key.now) }
    ensures { (agents : Agents) → IsGathered S.Store (texts words.now) measure_plan (noise_job agents key.now.preset circuit.now secret.now.places (lists_of key.now))
        agents store.old store.new result }
{
    let count = input_count(circuit);
    let inputs = read_ciphertexts(alloc, FileKind::Cts, key.preset(), count, words, 4, store)?;
    let product = measure_product(alloc, circuit, secret, key, inputs.as_slice())?;
    Ok(product)
}

// All behind the evaluation key.
fn gather_served<S: Store>(
    alloc: Global,
    circuit: &Circuit,
    secret: &Secret,
    key: &Eval,
    words: &[String],
    store: &mut S,
) -> Result<Product, Outcome>
    requires number { key.now.preset.id ≡ circuit.now.preset }
    requires secret { secret.now.preset ≡ key.now.preset }
    ensures { (agents : Agents) → IsGathered S.Store (texts words.now) measure_plan (measured_served_job agents key.now.preset circuit.now secret.now.places (lists_of key.now))
        agents store.old store.new result }
{
    judge_keys(alloc, circuit, key)?;
    gather_inputs(alloc, circuit, secret, key, words, store)
}

// All behind the secret key.
fn gather_key<S: Store>(
    alloc: Global,
    preset: &Preset,
    circuit: &Circuit,
    secret: &Secret,
    words: &[String],
    store: &mut S,
) -> Result<Product, Outcome>
    requires number { preset.now.id ≡ circuit.now.preset }
    requires secret { secret.now.preset ≡ preset.now }
    ensures { (agents : Agents) → IsGathered S.Store (texts words.now) measure_plan (measured_key_job agents preset.now circuit.now secret.now.places)
        agents store.old store.new result }
{
    let key = read_evaluation(alloc, preset, words, 3, store)?;
    gather_served(alloc, circuit, secret, &key, words, store)
}

// All behind the circuit, whose preset this is.
fn gather_secret<S: Store>(
    alloc: Global,
    preset: &Preset,
    circuit: &Circuit,
    words: &[String],
    store: &mut S,
) -> Result<Product, Outcome>
    requires { preset.now.id ≡ circuit.now.preset }
    ensures { (agents : Agents) → IsGathered S.Store (texts words.now) measure_plan (measured_secret_job agents preset.now circuit.now) agents store.old store.new result }
{
    let secret = read_secret(alloc, preset, words, 2, store)?;
    gather_key(alloc, preset, circuit, &secret, words, store)
}

/// All that `measure` gives, or why it ends before.
pub fn gather_measure<S: Store>(
    alloc: Global,
    words: &[String],
    store: &mut S,
) -> Result<Product, Outcome>
    ensures { (agents : Agents) → IsGathered S.Store (texts words.now) measure_plan (measure_job agents) agents store.old store.new result }
{
    let circuit = read_circuit(alloc, words, 1, store)?;
    gather_secret(alloc, circuit.preset(), &circuit, words, store)
}
