ghost use Rattle.std.specs.Prelude.{◌≡◌, IfOk};
ghost use Rattle.heco_jobs.specs.Agents.{Agents};
ghost use Rattle.heco_jobs.specs.Products.{Stores};
ghost use Rattle.heco_jobs.specs.Stages.{IsDecided, IsGathered};
ghost use Rattle.heco_jobs.specs.Words.{texts};
ghost use Rattle.heco_tasks.specs.DrawnFiles.{key_material_file, encryption_material_file};
ghost use Rattle.heco_tasks.specs.CircuitTasks.{two_files, draw_plan, draw_job, drawn_job};

use crate::circuits::input_count;
use heco_circuit::{Circuit, needs};
use heco_jobs::{Outcome, Product, storing_two};
use heco_material::{draw_enc, draw_keys, write_enc, write_keys};
use heco_nums::{Bytes, Memory};
use heco_outside::Store;
use heco_reads::read_circuit;
use std::alloc::Global;

// The file of the key material that is drawn for the circuit.
#[tactic(auto, unfolding(crate::specs::DrawnFiles::key_material_file))]
fn key_material(alloc: Global, circuit: &Circuit, seed: u64) -> Result<Bytes, Memory>
    ensures { IfOk result (λ bytes. bytes ≡ key_material_file circuit.now seed) }
{
    let needs = needs(alloc, circuit)?;
    let words = draw_keys(alloc, circuit.preset(), &needs, seed)?;
    write_keys(alloc, &words)
}

// The file of the encryption material that is drawn for the circuit's inputs.
#[tactic(auto, unfolding(crate::specs::DrawnFiles::encryption_material_file))]
fn encryption_material(alloc: Global, circuit: &Circuit, seed: u64) -> Result<Bytes, Memory>
    ensures { IfOk result (λ bytes. bytes ≡ encryption_material_file circuit.now seed) }
{
    let preset = circuit.preset();
    let words = draw_enc(alloc, preset, input_count(circuit), seed)?;
    write_enc(alloc, &words)
}

// The files of both.
fn draw_product(alloc: Global, circuit: &Circuit, seed: u64) -> Result<Product, Memory>
    ensures { IfOk result (Stores (two_files (key_material_file circuit.now seed) (encryption_material_file circuit.now seed))) }
{
    let keys = key_material(alloc, circuit, seed)?;
    let encryptions = encryption_material(alloc, circuit, seed)?;
    storing_two(alloc, (3, keys), (4, encryptions))
}

// All behind the circuit.
fn give_material(alloc: Global, circuit: &Circuit, seed: u64) -> Result<Product, Outcome>
    ensures { (agents : Agents) → IsDecided draw_plan (drawn_job agents seed circuit.now) agents result }
{
    let product = draw_product(alloc, circuit, seed)?;
    Ok(product)
}

/// All that `draw` gives for the seed, or why it ends before.
pub fn gather_draw<S: Store>(
    alloc: Global,
    seed: u64,
    words: &[String],
    store: &mut S,
) -> Result<Product, Outcome>
    ensures { (agents : Agents) → IsGathered S.Store (texts words.now) draw_plan (draw_job agents seed) agents store.old store.new result }
{
    let circuit = read_circuit(alloc, words, 1, store)?;
    give_material(alloc, &circuit, seed)
}
