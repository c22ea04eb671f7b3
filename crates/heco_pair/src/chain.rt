ghost use Rattle.std.specs.Prelude.{◌≡◌, IfOk, OnOk};
ghost use Rattle.heco_headline.specs.Pair.{CanRunBoth};
ghost use Rattle.heco_material.specs.KeyLists.{lists_of};
ghost use Rattle.heco_nums.specs.PresetRows.{preset_of};
ghost use Rattle.heco_jobs.specs.Agents.{picking};
ghost use Rattle.heco_exec.specs.Chain.{AreKeysFor};
ghost use Rattle.heco_tasks.specs.Running.{Leads};
ghost use Rattle.heco_pair.specs.Chain.{YieldsPair};
ghost use Rattle.heco_pair.specs.Texts.{both_texts};

use heco_circuit::Circuit;
use heco_exec::{made_keys, run_files};
use heco_jobs::Product;
use heco_material::{EncWords, KeyWords};
use heco_nums::{Bytes, Inputs, Memory};
use heco_products::{encrypted_pairs, rows_texts};
use heco_sched::Picker;
use std::alloc::Global;

// The text of the first row, the line between, and the text of the second row.
fn both_texts(first: Bytes, second: &Bytes) -> Result<Bytes, Memory>
    ensures { IfOk result (λ text. text ≡ both_texts first second.now) }
{
    let mut text = first;
    text.extend_from_slice(b"--\n")?;
    text.extend_from_slice(second.as_slice())?;
    Ok(text)
}

/// All that comes of the circuit, of material and of two rows of values: the circuit's file, the keys, the inputs
/// encrypted row beside row, the result of the run that the picker leads, and what decrypting it prints of both rows.
pub fn pair_product(
    alloc: Global,
    circuit: &Circuit,
    k: &KeyWords,
    material: &EncWords,
    first: &Inputs,
    second: &Inputs,
    picker: &mut Box<dyn Picker>,
) -> Result<Product, Memory>
    requires keys { AreKeysFor circuit.now k.now }
    requires kept { material.now.preset ≡ preset_of circuit.now.preset }
    requires runs { CanRunBoth circuit.now (lists_of k.now) material.now.rows first.now.rows second.now.rows }
    ensures yields { IfOk result (YieldsPair circuit.now (lists_of k.now) material.now.rows first.now.rows second.now.rows) }
    ensures leads { OnOk result (Leads circuit.now (picking (rule picker.old) (state picker.old)) (picking (rule picker.new) (state picker.new))) }
    ensures rule { rule picker.new ≡ rule picker.old }
{
    let (secret, key) = made_keys(alloc, circuit, k)?;
    let inputs = encrypted_pairs(alloc, circuit, &key, material, first, second)?;
    let (writes, results) = run_files(alloc, 6, circuit, &secret, &key, inputs, picker)?;
    let (upper, lower) = rows_texts(alloc, circuit, &secret, results.as_slice())?;
    let text = both_texts(upper, &lower)?;
    Ok(Product {
        writes,
        text: Some(text),
    })
}
