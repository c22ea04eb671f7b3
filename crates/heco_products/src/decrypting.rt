ghost use Rattle.std.specs.Prelude.{◌≡◌, ◌≤◌, IfOk, All, length, map};
ghost use Rattle.heco_scheme.specs.Ciphertexts.{IsCiphertext};
ghost use Rattle.heco_ciphertext_files.specs.CiphertextFiles.{AreCiphertexts};
ghost use Rattle.heco_products.specs.Decrypting.{behind_next, decrypted_slots, decrypted_wires, next_slots, output_wire_count, outputs_text};
ghost use Rattle.heco_circuit.specs.Plans.{shape_of};
ghost use Rattle.heco_meaning.specs.Meanings.{output_values};
ghost use Rattle.heco_texts.specs.Outputs.{output_text};
ghost use Rattle.heco_slots.specs.Rows.{first_row};

use crate::wires::output_wires;
use heco_bfv::{Ct, Scratch, decrypt};
use heco_circuit::{Circuit, Output};
use heco_files::print_outputs;
use heco_keys::Secret;
use heco_meaning::rows_of;
use heco_nums::{Bytes, List, Memory, Shape, Values};
use heco_slots::SlotTable;
use std::alloc::Global;

// The slots that a ciphertext decrypts to.
#[tactic(auto)]
fn decrypt_slots(
    alloc: Global,
    key: &Secret,
    table: &SlotTable,
    scratch: &mut Scratch,
    c: &Ct,
) -> Result<List<u32>, Memory>
    requires table { table.now.preset ≡ key.now.preset }
    requires scratch { scratch.old.preset ≡ key.now.preset }
    requires ciphertext { IsCiphertext key.now.preset.n c.now }
    ensures scratch { scratch.new.preset ≡ key.now.preset }
    ensures slots { IfOk result (λ row. row ≡ decrypted_slots key.now.preset first_row key.now.places c.now) }
{
    let mut row = vec![in alloc; 0; key.preset().slots as usize]?;
    decrypt(key, table, c, row.as_mut_slice(), scratch);
    Ok(List::from_vec(row))
}

// The slots of the next wire.
fn wire_slots(
    alloc: Global,
    key: &Secret,
    table: &SlotTable,
    scratch: &mut Scratch,
    is_output: bool,
    left: &[Ct],
) -> Result<List<u32>, Memory>
    requires table { table.now.preset ≡ key.now.preset }
    requires scratch { scratch.old.preset ≡ key.now.preset }
    requires ciphertexts { All (IsCiphertext key.now.preset.n) left.now }
    ensures scratch { scratch.new.preset ≡ key.now.preset }
    ensures slots { IfOk result (λ row. row ≡ next_slots key.now.preset first_row key.now.places is_output left.now) }
{
    if !is_output {
        return Ok(List::new(alloc));
    }
    match left {
        [c, ..] => decrypt_slots(alloc, key, table, scratch, c),
        [] => Ok(List::new(alloc)),
    }
}

// The ciphertexts behind the next wire.
pub(crate) fn behind_next(is_output: bool, left: &[Ct]) -> &[Ct]
    ensures { result.now ≡ behind_next is_output left.now }
{
    match left {
        [_, after @ ..] => if is_output { after } else { left },
        [] => left,
    }
}

// The slots of each wire.
fn decrypt_wires(
    alloc: Global,
    key: &Secret,
    wires: &[bool],
    results: &[Ct],
) -> Result<List<List<u32>>, Memory>
    requires ciphertexts { All (IsCiphertext key.now.preset.n) results.now }
    ensures slots { IfOk result (λ rows. rows ≡ decrypted_wires key.now.preset first_row key.now.places wires.now results.now) }
{
    let table = SlotTable::build(alloc, key.preset())?;
    let mut scratch = Scratch::open(alloc, key.preset())?;
    let mut rows = List::new(alloc);
    let mut left = results;
    for wire in wires {
        let row = wire_slots(alloc, key, &table, &mut scratch, *wire, left)?;
        rows.push(row)?;
        left = behind_next(*wire, left);
    }
    Ok(rows)
}

fn shape_of(alloc: Global, output: &Output) -> Result<Shape, Memory>
    requires { length output.now.cells ≤ 4096 }
    ensures { IfOk result (λ shape. shape ≡ shape_of output.now) }
{
    let name = Bytes::from_slice(alloc, output.name.as_slice())?;
    Ok(Shape {
        name,
        len: output.cells.len() as u32,
    })
}

// The names and lengths of the outputs.
fn shapes_of(alloc: Global, outputs: &[Output]) -> Result<List<Shape>, Memory>
    requires { All (λ o. length o.cells ≤ 4096) outputs.now }
    ensures { IfOk result (λ shapes. shapes ≡ map shape_of outputs.now) }
{
    let mut shapes = List::new(alloc);
    for output in outputs {
        shapes.push(shape_of(alloc, output)?)?;
    }
    Ok(shapes)
}

// The text of the circuit's outputs, where these are the slots of its wires.
pub(crate) fn printed(
    alloc: Global,
    circuit: &Circuit,
    slots: &[List<u32>],
) -> Result<Bytes, Memory>
    ensures { IfOk result (λ text. text ≡ output_text (map shape_of circuit.now.outputs) (map (output_values slots.now) circuit.now.outputs)) }
{
    let _valid = circuit.preset();
    let outputs = circuit.outputs().as_slice();
    let shapes = shapes_of(alloc, outputs)?;
    let rows = rows_of(alloc, slots, outputs)?;
    print_outputs(alloc, &shapes, &Values { rows })
}

/// The text of the circuit's outputs: a number is printed as it is, and a slot of a wire as that of the plaintext that
/// the wire's ciphertext decrypts to. The ciphertexts are those of the outputs' different wires, by rising number.
#[tactic(auto, unfolding(crate::specs::Decrypting::row_text))]
pub fn outputs_text(
    alloc: Global,
    circuit: &Circuit,
    key: &Secret,
    results: &[Ct],
) -> Result<Bytes, Memory>
    requires { AreCiphertexts key.now.preset.n (output_wire_count circuit.now) results.now }
    ensures { IfOk result (λ text. text ≡ outputs_text key.now.preset circuit.now key.now.places results.now) }
{
    let wires = output_wires(alloc, circuit)?;
    let slots = decrypt_wires(alloc, key, wires.as_slice(), results)?;
    printed(alloc, circuit, slots.as_slice())
}
