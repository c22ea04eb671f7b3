//! What a result is decrypted to in both rows.

ghost use Rattle.std.specs.Prelude.{◌≡◌, IfOk, All};
ghost use Rattle.heco_ciphertext_files.specs.CiphertextFiles.{AreCiphertexts};
ghost use Rattle.heco_scheme.specs.Ciphertexts.{IsCiphertext};
ghost use Rattle.heco_slots.specs.Rows.{first_row, second_row};
ghost use Rattle.heco_products.specs.Decrypting.{decrypted_slots, decrypted_wires, next_slots, output_wire_count, row_text};

use crate::decrypting::{behind_next, printed};
use crate::wires::output_wires;
use heco_bfv::{Ct, Scratch};
use heco_circuit::Circuit;
use heco_keys::Secret;
use heco_nums::{Bytes, List, Memory};
use heco_rows::decrypt_two;
use heco_slots::SlotTable;
use std::alloc::Global;

// The slots of both rows that a ciphertext decrypts to.
fn decrypt_rows(
    alloc: Global,
    key: &Secret,
    table: &SlotTable,
    scratch: &mut Scratch,
    c: &Ct,
) -> Result<(List<u32>, List<u32>), Memory>
    requires table { table.now.preset ≡ key.now.preset }
    requires scratch { scratch.old.preset ≡ key.now.preset }
    requires ciphertext { IsCiphertext key.now.preset.n c.now }
    ensures scratch { scratch.new.preset ≡ key.now.preset }
    ensures first { IfOk result (λ rows. rows.0 ≡ decrypted_slots key.now.preset first_row key.now.places c.now) }
    ensures second { IfOk result (λ rows. rows.1 ≡ decrypted_slots key.now.preset (second_row key.now.preset) key.now.places c.now) }
{
    let slots = key.preset().slots as usize;
    let mut first = vec![in alloc; 0; slots]?;
    let mut second = vec![in alloc; 0; slots]?;
    decrypt_two(
        key,
        table,
        c,
        first.as_mut_slice(),
        second.as_mut_slice(),
        scratch,
    );
    Ok((List::from_vec(first), List::from_vec(second)))
}

// The slots of the next wire.
fn wire_rows(
    alloc: Global,
    key: &Secret,
    table: &SlotTable,
    scratch: &mut Scratch,
    is_output: bool,
    left: &[Ct],
) -> Result<(List<u32>, List<u32>), Memory>
    requires table { table.now.preset ≡ key.now.preset }
    requires scratch { scratch.old.preset ≡ key.now.preset }
    requires ciphertexts { All (IsCiphertext key.now.preset.n) left.now }
    ensures scratch { scratch.new.preset ≡ key.now.preset }
    ensures first { IfOk result (λ rows. rows.0 ≡ next_slots key.now.preset first_row key.now.places is_output left.now) }
    ensures second { IfOk result (λ rows. rows.1 ≡ next_slots key.now.preset (second_row key.now.preset) key.now.places is_output left.now) }
{
    if !is_output {
        return Ok((List::new(alloc), List::new(alloc)));
    }
    match left {
        [c, ..] => decrypt_rows(alloc, key, table, scratch, c),
        [] => Ok((List::new(alloc), List::new(alloc))),
    }
}

// The slots of each wire, row by row.
fn decrypt_both(
    alloc: Global,
    key: &Secret,
    wires: &[bool],
    results: &[Ct],
) -> Result<(List<List<u32>>, List<List<u32>>), Memory>
    requires ciphertexts { All (IsCiphertext key.now.preset.n) results.now }
    ensures first { IfOk result (λ rows. rows.0 ≡ decrypted_wires key.now.preset first_row key.now.places wires.now results.now) }
    ensures second { IfOk result (λ rows. rows.1 ≡ decrypted_wires key.now.preset (second_row key.now.preset) key.now.places wires.now results.now) }
{
    let table = SlotTable::build(alloc, key.preset())?;
    let mut scratch = Scratch::open(alloc, key.preset())?;
    let mut first = List::new(alloc);
    let mut second = List::new(alloc);
    let mut left = results;
    for wire in wires {
        let (row, other) = wire_rows(alloc, key, &table, &mut scratch, *wire, left)?;
        first.push(row)?;
        second.push(other)?;
        left = behind_next(*wire, left);
    }
    Ok((first, second))
}

/// The texts of the circuit's outputs in the first row and in the second: as `outputs_text`, by the slots of the one row
/// and of the other. A number stands in both.
#[tactic(auto, unfolding(crate::specs::Decrypting::row_text))]
pub fn rows_texts(
    alloc: Global,
    circuit: &Circuit,
    key: &Secret,
    results: &[Ct],
) -> Result<(Bytes, Bytes), Memory>
    requires { AreCiphertexts key.now.preset.n (output_wire_count circuit.now) results.now }
    ensures first { IfOk result (λ texts. texts.0 ≡ row_text key.now.preset first_row circuit.now key.now.places results.now) }
    ensures second { IfOk result (λ texts. texts.1 ≡ row_text key.now.preset (second_row key.now.preset) circuit.now key.now.places results.now) }
{
    let wires = output_wires(alloc, circuit)?;
    let (first, second) = decrypt_both(alloc, key, wires.as_slice(), results)?;
    let text = printed(alloc, circuit, first.as_slice())?;
    let other = printed(alloc, circuit, second.as_slice())?;
    Ok((text, other))
}
