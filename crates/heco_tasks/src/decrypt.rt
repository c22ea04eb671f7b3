ghost use Rattle.std.specs.Prelude.{◌≡◌, IfOk};
ghost use Rattle.heco_ciphertext_files.specs.CiphertextFiles.{AreCiphertexts};
ghost use Rattle.heco_products.specs.Decrypting.{output_wire_count, outputs_text};
ghost use Rattle.heco_jobs.specs.Agents.{Agents};
ghost use Rattle.heco_jobs.specs.Products.{Prints};
ghost use Rattle.heco_jobs.specs.Stages.{IsGathered};
ghost use Rattle.heco_jobs.specs.Words.{texts};
ghost use Rattle.heco_tasks.specs.CircuitTasks.{decrypt_plan, decrypt_job, secret_job, result_job};

use heco_bfv::Ct;
use heco_circuit::Circuit;
use heco_files::FileKind;
use heco_jobs::{Outcome, Product, printing};
use heco_keys::Secret;
use heco_nums::{Memory, Preset};
use heco_outside::Store;
use heco_products::{output_wire_count, outputs_text};
use heco_reads::{read_ciphertexts, read_circuit, read_secret};
use std::alloc::Global;

// The text of the outputs.
fn decrypt_product(
    alloc: Global,
    circuit: &Circuit,
    key: &Secret,
    results: &[Ct],
) -> Result<Product, Memory>
    requires { AreCiphertexts key.now.preset.n (output_wire_count circuit.now) results.now }
    ensures { IfOk result (Prints (outputs_text key.now.preset circuit.now key.now.places results.now)) }
{
    let text = outputs_text(alloc, circuit, key, results)?;
    Ok(printing(alloc, text))
}

// All behind the secret key.
fn gather_result<S: Store>(
    alloc: Global,
    preset: &Preset,
    circuit: &Circuit,
    key: &Secret,
    words: &[String],
    store: &mut S,
) -> Result<Product, Outcome>
    requires { key.now.preset ≡ preset.now }
    ensures { (agents : Agents) → IsGathered S.Store (texts words.now) decrypt_plan (result_job agents preset.now circuit.now key.now.places) agents store.old store.new result }
{
    let count = output_wire_count(alloc, circuit)?;
    let results = read_ciphertexts(alloc, FileKind::Res, preset, count, words, 3, store)?;
    let product = decrypt_product(alloc, circuit, key, results.as_slice())?;
    Ok(product)
}

// All behind the circuit, whose preset this is.
fn gather_secret<S: Store>(
    alloc: Global,
    preset: &Preset,
    circuit: &Circuit,
    words: &[String],
    store: &mut S,
) -> Result<Product, Outcome>
    ensures { (agents : Agents) → IsGathered S.Store (texts words.now) decrypt_plan (secret_job agents preset.now circuit.now) agents store.old store.new result }
{
    let key = read_secret(alloc, preset, words, 2, store)?;
    gather_result(alloc, preset, circuit, &key, words, store)
}

/// All that `decrypt` gives, or why it ends before.
pub fn gather_decrypt<S: Store>(
    alloc: Global,
    words: &[String],
    store: &mut S,
) -> Result<Product, Outcome>
    ensures { (agents : Agents) → IsGathered S.Store (texts words.now) decrypt_plan (decrypt_job agents) agents store.old store.new result }
{
    let circuit = read_circuit(alloc, words, 1, store)?;
    gather_secret(alloc, circuit.preset(), &circuit, words, store)
}
