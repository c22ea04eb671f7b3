ghost use Rattle.std.specs.Prelude.{◌≡◌, IfOk};
ghost use Rattle.heco_key_files.specs.KeyFiles.{made_key, eval_text, secret_text};
ghost use Rattle.heco_keys.specs.Amounts.{AreAmounts};
ghost use Rattle.heco_material.specs.KeyLists.{lists_of, key_count, IsKeyMaterial};
ghost use Rattle.heco_jobs.specs.Agents.{Agents};
ghost use Rattle.heco_jobs.specs.Products.{Stores};
ghost use Rattle.heco_jobs.specs.Stages.{IsGathered};
ghost use Rattle.heco_jobs.specs.Words.{texts};
ghost use Rattle.heco_tasks.specs.CircuitTasks.{two_files, keys_plan, keys_job, material_job};

use heco_circuit::{Circuit, needs};
use heco_jobs::{Outcome, Product, storing_two};
use heco_key_files::{write_eval, write_secret};
use heco_keys::make;
use heco_material::KeyWords;
use heco_nums::{Memory, Preset};
use heco_outside::Store;
use heco_reads::{read_circuit, read_material};
use std::alloc::Global;

// The files of both keys that are made of key material within bounds.
fn keys_product(alloc: Global, k: &KeyWords) -> Result<Product, Memory>
    requires material { IsKeyMaterial k.now.preset.n k.now.preset.h k.now.preset.b (key_count k.now.needs) (lists_of k.now) }
    requires amounts { AreAmounts k.now.preset.slots k.now.needs.turns }
    ensures { IfOk result (Stores (two_files (secret_text k.now.preset.id k.now.s)
        (eval_text k.now.preset.id (made_key k.now.preset.n k.now.needs.relin k.now.needs.turns (lists_of k.now))))) }
{
    let (secret, evaluation) = make(alloc, k)?;
    let first = write_secret(alloc, &secret)?;
    let second = write_eval(alloc, &evaluation)?;
    storing_two(alloc, (3, first), (4, second))
}

// All behind the circuit, whose preset this is.
fn gather_material<S: Store>(
    alloc: Global,
    preset: &Preset,
    circuit: &Circuit,
    words: &[String],
    store: &mut S,
) -> Result<Product, Outcome>
    requires { preset.now.id ≡ circuit.now.preset }
    ensures { (agents : Agents) → IsGathered S.Store (texts words.now) keys_plan (material_job agents preset.now circuit.now) agents store.old store.new result }
{
    let needs = needs(alloc, circuit)?;
    let material = read_material(alloc, preset, &needs, words, 2, store)?;
    let product = keys_product(alloc, &material)?;
    Ok(product)
}

/// All that `keys` gives, or why it ends before.
pub fn gather_keys<S: Store>(
    alloc: Global,
    words: &[String],
    store: &mut S,
) -> Result<Product, Outcome>
    ensures { (agents : Agents) → IsGathered S.Store (texts words.now) keys_plan (keys_job agents) agents store.old store.new result }
{
    let circuit = read_circuit(alloc, words, 1, store)?;
    gather_material(alloc, circuit.preset(), &circuit, words, store)
}
