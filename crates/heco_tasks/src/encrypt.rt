ghost use Rattle.std.specs.Prelude.{◌≡◌, ◌∷◌, [], IfOk, length};
ghost use Rattle.heco_key_files.specs.KeyFiles.{lists_of};
ghost use Rattle.heco_material.specs.KeyLists.{IsEncMaterial};
ghost use Rattle.heco_texts.specs.Answers.{HaveFit};
ghost use Rattle.heco_products.specs.Encrypting.{inputs_file};
ghost use Rattle.heco_jobs.specs.Agents.{Agents};
ghost use Rattle.heco_jobs.specs.Products.{Stores, planned};
ghost use Rattle.heco_jobs.specs.Stages.{IsGathered};
ghost use Rattle.heco_jobs.specs.Words.{texts};
ghost use Rattle.heco_tasks.specs.CircuitTasks.{encrypt_plan, encrypt_job, evaluation_job, encryptions_job, inputs_job};

use crate::circuits::{input_count, inputs_of};
use heco_circuit::Circuit;
use heco_jobs::{Outcome, Product, storing};
use heco_keys::Eval;
use heco_material::EncWords;
use heco_nums::{Inputs, Memory, Preset};
use heco_outside::Store;
use heco_products::inputs_file;
use heco_reads::{read_circuit, read_encryptions, read_evaluation, read_inputs};
use std::alloc::Global;

// The file of the encrypted inputs.
fn encrypt_product(
    alloc: Global,
    circuit: &Circuit,
    key: &Eval,
    material: &EncWords,
    values: &Inputs,
) -> Result<Product, Memory>
    requires kept { material.now.preset ≡ key.now.preset }
    requires preset { key.now.preset.id ≡ circuit.now.preset }
    requires within { let p = key.now.preset in IsEncMaterial p.n p.h p.b (length circuit.now.inputs) material.now.rows }
    requires fit { HaveFit key.now.preset.t circuit.now.inputs values.now.rows }
    ensures { IfOk result (Stores (planned 5 (inputs_file key.now.preset (lists_of key.now) material.now.rows values.now.rows) ∷ [])) }
{
    let bytes = inputs_file(alloc, circuit, key, material, values)?;
    storing(alloc, 5, bytes)
}

// All behind the encryption material.
fn gather_values<S: Store>(
    alloc: Global,
    preset: &Preset,
    circuit: &Circuit,
    key: &Eval,
    material: &EncWords,
    words: &[String],
    store: &mut S,
) -> Result<Product, Outcome>
    requires number { preset.now.id ≡ circuit.now.preset }
    requires key { key.now.preset ≡ preset.now }
    requires kept { material.now.preset ≡ preset.now }
    requires within { IsEncMaterial preset.now.n preset.now.h preset.now.b (length circuit.now.inputs) material.now.rows }
    ensures { (agents : Agents) → IsGathered S.Store (texts words.now) encrypt_plan (inputs_job agents preset.now circuit.now (lists_of key.now) material.now.rows)
        agents store.old store.new result }
{
    let inputs = inputs_of(circuit);
    let values = read_inputs(alloc, preset, inputs, words, 4, store)?;
    let product = encrypt_product(alloc, circuit, key, material, &values)?;
    Ok(product)
}

// All behind the evaluation key.
fn gather_encryptions<S: Store>(
    alloc: Global,
    preset: &Preset,
    circuit: &Circuit,
    key: &Eval,
    words: &[String],
    store: &mut S,
) -> Result<Product, Outcome>
    requires number { preset.now.id ≡ circuit.now.preset }
    requires key { key.now.preset ≡ preset.now }
    ensures { (agents : Agents) → IsGathered S.Store (texts words.now) encrypt_plan (encryptions_job agents preset.now circuit.now (lists_of key.now))
        agents store.old store.new result }
{
    let count = input_count(circuit);
    let material = read_encryptions(alloc, preset, count, words, 3, store)?;
    gather_values(alloc, preset, circuit, key, &material, words, store)
}

// All behind the circuit, whose preset this is.
fn gather_evaluation<S: Store>(
    alloc: Global,
    preset: &Preset,
    circuit: &Circuit,
    words: &[String],
    store: &mut S,
) -> Result<Product, Outcome>
    requires { preset.now.id ≡ circuit.now.preset }
    ensures { (agents : Agents) → IsGathered S.Store (texts words.now) encrypt_plan (evaluation_job agents preset.now circuit.now) agents store.old store.new result }
{
    let key = read_evaluation(alloc, preset, words, 2, store)?;
    gather_encryptions(alloc, preset, circuit, &key, words, store)
}

/// All that `encrypt` gives, or why it ends before.
pub fn gather_encrypt<S: Store>(
    alloc: Global,
    words: &[String],
    store: &mut S,
) -> Result<Product, Outcome>
    ensures { (agents : Agents) → IsGathered S.Store (texts words.now) encrypt_plan (encrypt_job agents) agents store.old store.new result }
{
    let circuit = read_circuit(alloc, words, 1, store)?;
    gather_evaluation(alloc, circuit.preset(), &circuit, words, store)
}
