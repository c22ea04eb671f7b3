use crate::files::gathered;
use heco_circuit::{Circuit, read};
use heco_nums::{Bytes, Memory};
use std::alloc::Global;
use std::test::Fail;

// Up to the number of the gates: one input x[2] under p8.
const START: [u8; 15] = *b"HCIR\x01\x01\x00\x01\x00\x00\x00\x01x\x00\x02";

// One output, by the name y.
const OUTPUT: [u8; 7] = *b"\x00\x01\x00\x00\x00\x01y";

fn put_gate(file: &mut Bytes, tag: u8, first: u32) -> Result<(), Memory> {
    file.push(tag)?;
    file.extend_from_slice(&first.to_be_bytes())
}

// Each wire is its predecessor's opposite.
fn put_opposites(file: &mut Bytes, count: u32) -> Result<(), Memory> {
    for wire in 0..count {
        put_gate(file, 1, wire)?;
    }
    Ok(())
}

fn put_multiple(file: &mut Bytes, by: u32, wire: u32) -> Result<(), Memory> {
    put_gate(file, 6, by)?;
    file.extend_from_slice(&wire.to_be_bytes())
}

// Twice and three times each of them.
fn put_multiples(file: &mut Bytes, count: u32) -> Result<(), Memory> {
    for wire in 1..=count {
        put_multiple(file, 2, wire)?;
        put_multiple(file, 3, wire)?;
    }
    Ok(())
}

fn put_cell(file: &mut Bytes, wire: u32, slot: u16) -> Result<(), Memory> {
    put_gate(file, 1, wire)?;
    file.extend_from_slice(&slot.to_be_bytes())
}

// The multiples by 2 at the slot 0, those by 3 at the slot 1.
fn put_cells(file: &mut Bytes, count: u16) -> Result<(), Memory> {
    file.extend_from_slice(&count.wrapping_mul(2).to_be_bytes())?;
    let count = u32::from(count);
    for i in 0..count {
        put_cell(file, count + 1 + 2 * i, 0)?;
        put_cell(file, count + 2 + 2 * i, 1)?;
    }
    Ok(())
}

// So many wires, and two multiples of each.
fn file_of(alloc: Global, count: u16) -> Result<Bytes, Memory> {
    let mut file = Bytes::from_slice(alloc, &START)?;
    let wires = u32::from(count);
    file.extend_from_slice(&(3 * wires).to_be_bytes())?;
    put_opposites(&mut file, wires)?;
    put_multiples(&mut file, wires)?;
    file.extend_from_slice(&OUTPUT)?;
    put_cells(&mut file, count)?;
    Ok(file)
}

fn circuit_of(alloc: Global, count: u16) -> Result<Circuit, Fail> {
    let file = file_of(alloc, count)?;
    Ok(read(alloc, file.as_slice())?)
}

// How many vectors and gates a circuit has, and its last two gates.
fn told(alloc: Global, c: &Circuit) -> Result<String, Fail> {
    let gates = c.gates().as_slice();
    let mut text = format!(in alloc; "{} {}:", c.vectors().len(), gates.len())?;
    for gate in gates.split_at(gates.len().saturating_sub(2)).1 {
        text.push_str(format!(in alloc; " {gate:?};")?.as_str())?;
    }
    Ok(text)
}

fn told_gathered(alloc: Global, count: u16) -> Result<String, Fail> {
    let c = circuit_of(alloc, count)?;
    let d = gathered(alloc, c)?;
    told(alloc, &d)
}

#[test]
fn all_of_256_wires_are_gathered(rt: HostRuntime) -> Result<(), Fail> {
    assert_eq!(rt;
        told_gathered(rt.alloc(), 256)?.as_str(),
        "256 512: Weigh { v: 254, a: 255 }; Weigh { v: 255, a: 256 };"
    );
    Ok(())
}

#[test]
fn of_257_wires_the_last_stays(rt: HostRuntime) -> Result<(), Fail> {
    assert_eq!(rt;
        told_gathered(rt.alloc(), 257)?.as_str(),
        "256 515: Scale { c: 2, a: 257 }; Scale { c: 3, a: 257 };"
    );
    Ok(())
}
