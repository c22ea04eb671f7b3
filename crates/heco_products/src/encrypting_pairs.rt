//! What two texts of inputs are encrypted to, row beside row.

ghost use Rattle.std.specs.Prelude.{◌≡◌, ◌≤◌, ◌<◌, IfOk, Some, All, slice_get, length};
ghost use Rattle.heco_key_files.specs.KeyFiles.{lists_of};
ghost use Rattle.heco_material.specs.KeyLists.{IsEncMaterial, IsEncRow};
ghost use Rattle.heco_material.specs.declared.words.EncRow.{EncRow};
ghost use Rattle.heco_run_laws.specs.Carried.{FitsRow};
ghost use Rattle.heco_texts.specs.Answers.{HaveFit};
ghost use Rattle.heco_products.specs.Encrypting.{encrypted_message, encrypted_pairs, pair_message};

use heco_bfv::Ct;
use heco_circuit::Circuit;
use heco_keys::Eval;
use heco_material::EncWords;
use heco_meaning::filled;
use heco_nums::{Inputs, List, Memory};
use heco_rows::encrypt_two;
use heco_slots::SlotTable;
use std::alloc::Global;

// Input i: its values in both rows, and then zeros, encrypted by row i of the material.
fn encrypt_pair(
    alloc: Global,
    key: &Eval,
    material: &EncWords,
    table: &SlotTable,
    i: u32,
    first: &[u32],
    second: &[u32],
) -> Result<Ct, Memory>
    requires preset { material.now.preset ≡ key.now.preset }
    requires table { table.now.preset ≡ key.now.preset }
    requires inside { i < length material.now.rows }
    requires within { let p = key.now.preset in All (IsEncRow p.n p.h p.b) material.now.rows }
    requires first { FitsRow key.now.preset first.now }
    requires second { FitsRow key.now.preset second.now }
    ensures count { IfOk result (λ c. length c ≡ 2) }
    ensures formula { IfOk result (λ c. (row : EncRow) → slice_get material.now.rows i ≡ Some row
        → c ≡ encrypted_message key.now.preset (lists_of key.now) row (pair_message key.now.preset first.now second.now)) }
{
    let slots = key.preset().slots;
    let first = filled(alloc, slots, first)?;
    let second = filled(alloc, slots, second)?;
    encrypt_two(
        alloc,
        key,
        material,
        table,
        i,
        first.as_slice(),
        second.as_slice(),
    )
}

// All inputs in order.
fn encrypt_pairs(
    alloc: Global,
    key: &Eval,
    material: &EncWords,
    first: &[List<u32>],
    second: &[List<u32>],
) -> Result<Vec<Ct>, Memory>
    requires preset { material.now.preset ≡ key.now.preset }
    requires count { length first.now ≡ length material.now.rows }
    requires same { length second.now ≡ length first.now }
    requires few { length first.now ≤ 256 }
    requires within { let p = key.now.preset in All (IsEncRow p.n p.h p.b) material.now.rows }
    requires first { All (FitsRow key.now.preset) first.now }
    requires second { All (FitsRow key.now.preset) second.now }
    ensures two { IfOk result (λ cs. All (λ c. length c ≡ 2) cs.items) }
    ensures formula { IfOk result (λ cs. cs.items ≡ encrypted_pairs key.now.preset (lists_of key.now) material.now.rows first.now second.now) }
{
    let table = SlotTable::build(alloc, key.preset())?;
    let mut list = Vec::new(alloc);
    for (i, row) in first.iter().enumerate() {
        let other = second[i].as_slice();
        let c = encrypt_pair(
            alloc,
            key,
            material,
            &table,
            i as u32,
            row.as_slice(),
            other,
        )?;
        list.push(c)?;
    }
    Ok(list)
}

/// The circuit's inputs, encrypted in two rows: one ciphertext for each in order, of its values and then zeros as the
/// slots of each row, by the row of the material of its number, from the public key.
pub fn encrypted_pairs(
    alloc: Global,
    circuit: &Circuit,
    key: &Eval,
    material: &EncWords,
    first: &Inputs,
    second: &Inputs,
) -> Result<Vec<Ct>, Memory>
    requires preset { key.now.preset.id ≡ circuit.now.preset }
    requires kept { material.now.preset ≡ key.now.preset }
    requires within { let p = key.now.preset in IsEncMaterial p.n p.h p.b (length circuit.now.inputs) material.now.rows }
    requires first { HaveFit key.now.preset.t circuit.now.inputs first.now.rows }
    requires second { HaveFit key.now.preset.t circuit.now.inputs second.now.rows }
    ensures two { IfOk result (λ cs. All (λ c. length c ≡ 2) cs.items) }
    ensures formula { IfOk result (λ cs. cs.items ≡ encrypted_pairs key.now.preset (lists_of key.now) material.now.rows first.now.rows second.now.rows) }
{
    let _valid = circuit.preset();
    encrypt_pairs(
        alloc,
        key,
        material,
        first.rows.as_slice(),
        second.rows.as_slice(),
    )
}
