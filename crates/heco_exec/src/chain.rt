ghost use Rattle.std.specs.Prelude.{◌≡◌, IfOk, OnOk};
ghost use Rattle.heco_end_to_end.specs.EndToEnd.{IsRunnable};
ghost use Rattle.heco_material.specs.KeyLists.{lists_of};
ghost use Rattle.heco_nums.specs.PresetRows.{preset_of};
ghost use Rattle.heco_jobs.specs.Agents.{picking};
ghost use Rattle.heco_exec.specs.Chain.{AreKeysFor, Yields};
ghost use Rattle.heco_tasks.specs.Running.{Leads};

use crate::files::run_files;
use crate::keys::made_keys;
use heco_circuit::Circuit;
use heco_jobs::Product;
use heco_material::{EncWords, KeyWords};
use heco_nums::{Inputs, Memory};
use heco_products::{encrypted_inputs, outputs_text};
use heco_sched::Picker;
use std::alloc::Global;

/// All that comes of the circuit, of material and of values: the circuit's file, the keys, the encrypted inputs, the
/// result of the run that the picker leads, and what decrypting it prints.
pub fn chain_product(
    alloc: Global,
    circuit: &Circuit,
    k: &KeyWords,
    material: &EncWords,
    values: &Inputs,
    picker: &mut Box<dyn Picker>,
) -> Result<Product, Memory>
    requires keys { AreKeysFor circuit.now k.now }
    requires kept { material.now.preset ≡ preset_of circuit.now.preset }
    requires runs { IsRunnable (preset_of circuit.now.preset) circuit.now (lists_of k.now) material.now.rows values.now.rows }
    ensures yields { IfOk result (Yields circuit.now (lists_of k.now) material.now.rows values.now.rows) }
    ensures leads { OnOk result (Leads circuit.now (picking (rule picker.old) (state picker.old)) (picking (rule picker.new) (state picker.new))) }
    ensures rule { rule picker.new ≡ rule picker.old }
{
    let (secret, key) = made_keys(alloc, circuit, k)?;
    let inputs = encrypted_inputs(alloc, circuit, &key, material, values)?;
    let (writes, results) = run_files(alloc, 5, circuit, &secret, &key, inputs, picker)?;
    let text = outputs_text(alloc, circuit, &secret, results.as_slice())?;
    Ok(Product {
        writes,
        text: Some(text),
    })
}
