ghost use Rattle.std.specs.Prelude.{◌≡◌, ◌∷◌, [], IfOk, OnOk, length};
ghost use Rattle.heco_ciphertext_files.specs.CiphertextFiles.{AreCiphertexts};
ghost use Rattle.heco_key_files.specs.KeyFiles.{lists_of};
ghost use Rattle.heco_products.specs.Results.{results_file};
ghost use Rattle.heco_jobs.specs.Agents.{picking};
ghost use Rattle.heco_jobs.specs.Products.{Stores, planned};
ghost use Rattle.heco_tasks.specs.Running.{HasKeys, Leads};

use crate::running::run_circuit;
use heco_bfv::Ct;
use heco_circuit::Circuit;
use heco_files::{FileKind, write_cts};
use heco_jobs::{Product, storing};
use heco_keys::Eval;
use heco_nums::Memory;
use heco_sched::Picker;
use std::alloc::Global;

/// The file of the circuit's result in the fourth word, and the picker as the run leaves it.
pub fn run_product(
    alloc: Global,
    circuit: &Circuit,
    key: &Eval,
    inputs: Vec<Ct>,
    picker: &mut Box<dyn Picker>,
) -> Result<Product, Memory>
    requires preset { key.now.preset.id ≡ circuit.now.preset }
    requires keys { HasKeys circuit.now (lists_of key.now) }
    requires inputs { AreCiphertexts key.now.preset.n (length circuit.now.inputs) inputs.items }
    ensures stores { IfOk result (Stores (planned 4 (results_file key.now.preset circuit.now (lists_of key.now) inputs.items) ∷ [])) }
    ensures leads { OnOk result (Leads circuit.now (picking (rule picker.old) (state picker.old)) (picking (rule picker.new) (state picker.new))) }
    ensures rule { rule picker.new ≡ rule picker.old }
{
    let results = run_circuit(alloc, circuit, key, inputs, picker)?;
    let bytes = write_cts(alloc, FileKind::Res, key.preset(), results.as_slice())?;
    storing(alloc, 4, bytes)
}
