ghost use Rattle.std.specs.Prelude.{◌≡◌, ◌≤◌, ◌<◌, IfOk, Some, All, slice_get, length};
ghost use Rattle.heco_ciphertext_files.specs.CiphertextFiles.{file_text, magic_of};
ghost use Rattle.heco_ciphertext_files.specs.declared.kind.FileKind.TheVariants.{Cts};
ghost use Rattle.heco_key_files.specs.KeyFiles.{lists_of};
ghost use Rattle.heco_material.specs.KeyLists.{IsEncMaterial, IsEncRow};
ghost use Rattle.heco_material.specs.declared.words.EncRow.{EncRow};
ghost use Rattle.heco_texts.specs.Answers.{HaveFit};
ghost use Rattle.heco_products.specs.Encrypting.{encrypted_input, encrypted_inputs, inputs_file};

use heco_bfv::{Ct, encrypt};
use heco_circuit::Circuit;
use heco_files::{FileKind, write_cts};
use heco_keys::Eval;
use heco_material::EncWords;
use heco_meaning::filled;
use heco_nums::{Bytes, Inputs, List, Memory};
use std::alloc::Global;

// Input i: its values, and then zeros, encrypted by row i of the material.
#[tactic(auto, unfolding(crate::specs::Encrypting::encrypted_message))]
fn encrypt_input(
    alloc: Global,
    key: &Eval,
    material: &EncWords,
    i: u32,
    values: &[u32],
) -> Result<Ct, Memory>
    requires preset { material.now.preset ≡ key.now.preset }
    requires inside { i < length material.now.rows }
    requires within { let p = key.now.preset in All (IsEncRow p.n p.h p.b) material.now.rows }
    requires short { length values.now ≤ key.now.preset.slots }
    requires below { All (λ x. x < key.now.preset.t) values.now }
    ensures count { IfOk result (λ c. length c ≡ 2) }
    ensures formula { IfOk result (λ c. (row : EncRow) → slice_get material.now.rows i ≡ Some row → c ≡ encrypted_input key.now.preset (lists_of key.now) row values.now) }
{
    let slots = filled(alloc, key.preset().slots, values)?;
    encrypt(alloc, key, material, i, slots.as_slice())
}

// All inputs in order.
fn encrypt_inputs(
    alloc: Global,
    key: &Eval,
    material: &EncWords,
    inputs: &[List<u32>],
) -> Result<Vec<Ct>, Memory>
    requires preset { material.now.preset ≡ key.now.preset }
    requires count { length inputs.now ≡ length material.now.rows }
    requires few { length inputs.now ≤ 256 }
    requires within { let p = key.now.preset in All (IsEncRow p.n p.h p.b) material.now.rows }
    requires short { All (λ row. length row ≤ key.now.preset.slots) inputs.now }
    requires below { All (λ row. All (λ x. x < key.now.preset.t) row) inputs.now }
    ensures two { IfOk result (λ cs. All (λ c. length c ≡ 2) cs.items) }
    ensures formula { IfOk result (λ cs. cs.items ≡ encrypted_inputs key.now.preset (lists_of key.now) material.now.rows inputs.now) }
{
    let mut list = Vec::new(alloc);
    for (i, row) in inputs.iter().enumerate() {
        list.push(encrypt_input(alloc, key, material, i as u32, row.as_slice())?)?;
    }
    Ok(list)
}

/// The circuit's encrypted inputs: one ciphertext for each in order, of its values and then zeros as the slots, by the
/// row of the material of its number, from the public key.
pub fn encrypted_inputs(
    alloc: Global,
    circuit: &Circuit,
    key: &Eval,
    material: &EncWords,
    inputs: &Inputs,
) -> Result<Vec<Ct>, Memory>
    requires preset { key.now.preset.id ≡ circuit.now.preset }
    requires kept { material.now.preset ≡ key.now.preset }
    requires within { let p = key.now.preset in IsEncMaterial p.n p.h p.b (length circuit.now.inputs) material.now.rows }
    requires fit { HaveFit key.now.preset.t circuit.now.inputs inputs.now.rows }
    ensures two { IfOk result (λ cs. All (λ c. length c ≡ 2) cs.items) }
    ensures formula { IfOk result (λ cs. cs.items ≡ encrypted_inputs key.now.preset (lists_of key.now) material.now.rows inputs.now.rows) }
{
    let _valid = circuit.preset();
    encrypt_inputs(alloc, key, material, inputs.rows.as_slice())
}

/// The file of the circuit's encrypted inputs.
pub fn inputs_file(
    alloc: Global,
    circuit: &Circuit,
    key: &Eval,
    material: &EncWords,
    inputs: &Inputs,
) -> Result<Bytes, Memory>
    requires preset { key.now.preset.id ≡ circuit.now.preset }
    requires kept { material.now.preset ≡ key.now.preset }
    requires within { let p = key.now.preset in IsEncMaterial p.n p.h p.b (length circuit.now.inputs) material.now.rows }
    requires fit { HaveFit key.now.preset.t circuit.now.inputs inputs.now.rows }
    ensures { IfOk result (λ bytes. bytes ≡ inputs_file key.now.preset (lists_of key.now) material.now.rows inputs.now.rows) }
{
    let ciphertexts = encrypted_inputs(alloc, circuit, key, material, inputs)?;
    write_cts(alloc, FileKind::Cts, key.preset(), ciphertexts.as_slice())
}
