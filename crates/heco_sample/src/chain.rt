ghost use Rattle.std.specs.Prelude.{◌≡◌, IfOk, OnOk};
ghost use Rattle.heco_end_to_end.specs.EndToEnd.{IsRunnable};
ghost use Rattle.heco_exec.specs.Chain.{AreKeysFor};
ghost use Rattle.heco_headline.specs.Exec.{text_of};
ghost use Rattle.heco_jobs.specs.Agents.{picking};
ghost use Rattle.heco_material.specs.KeyLists.{lists_of};
ghost use Rattle.heco_nums.specs.PresetRows.{preset_of};
ghost use Rattle.heco_sample.specs.Drawn.{drawn_rows, drawn_words, decrypted_text};
ghost use Rattle.heco_tasks.specs.DrawnFiles.{drawn_material};
ghost use Rattle.heco_tasks.specs.Running.{Leads};
ghost use Rattle.heco_texts.specs.Answers.{HaveFit};

use crate::drawn::{keys, words};
use heco_circuit::Circuit;
use heco_exec::made_keys;
use heco_material::{EncWords, KeyWords};
use heco_nums::{Bytes, Inputs, Memory};
use heco_products::{encrypted_inputs, outputs_text};
use heco_sched::Picker;
use heco_tasks::run_circuit;
use std::alloc::Global;

// What decrypting the result prints: the keys are made, the values encrypted, and the circuit is run as the picker leads.
fn chain_text(
    alloc: Global,
    circuit: &Circuit,
    k: &KeyWords,
    material: &EncWords,
    values: &Inputs,
    picker: &mut Box<dyn Picker>,
) -> Result<Bytes, Memory>
    requires keys { AreKeysFor circuit.now k.now }
    requires kept { material.now.preset ≡ preset_of circuit.now.preset }
    requires runs { IsRunnable (preset_of circuit.now.preset) circuit.now (lists_of k.now) material.now.rows values.now.rows }
    ensures text { IfOk result (λ text. text ≡ text_of circuit.now (lists_of k.now) material.now.rows values.now.rows) }
    ensures leads { OnOk result (Leads circuit.now (picking (rule picker.old) (state picker.old)) (picking (rule picker.new) (state picker.new))) }
    ensures rule { rule picker.new ≡ rule picker.old }
{
    let (secret, key) = made_keys(alloc, circuit, k)?;
    let inputs = encrypted_inputs(alloc, circuit, &key, material, values)?;
    let results = run_circuit(alloc, circuit, &key, inputs, picker)?;
    let text = outputs_text(alloc, circuit, &secret, results.as_slice())?;
    Ok(text)
}

/// What decrypting the result prints, of keys and of inputs encrypted by what the seed draws for the circuit.
pub fn drawn_text(
    alloc: Global,
    circuit: &Circuit,
    seed: u64,
    values: &Inputs,
    picker: &mut Box<dyn Picker>,
) -> Result<Bytes, Memory>
    requires rows { values.now.rows ≡ drawn_rows seed }
    requires fit { HaveFit (preset_of circuit.now.preset).t circuit.now.inputs values.now.rows }
    ensures runs { OnOk result (IsRunnable (preset_of circuit.now.preset) circuit.now (drawn_material circuit.now seed) (drawn_words circuit.now seed)
        (drawn_rows seed)) }
    ensures text { IfOk result (λ text. text ≡ decrypted_text circuit.now seed) }
    ensures leads { OnOk result (Leads circuit.now (picking (rule picker.old) (state picker.old)) (picking (rule picker.new) (state picker.new))) }
    ensures rule { rule picker.new ≡ rule picker.old }
{
    let _valid = circuit.preset();
    let k = keys(alloc, circuit, seed)?;
    let material = words(alloc, circuit, seed)?;
    let text = chain_text(alloc, circuit, &k, &material, values, picker)?;
    Ok(text)
}
