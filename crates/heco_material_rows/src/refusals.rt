use crate::files::{answer, drawn};
use heco_nums::{Memory, Preset};
use std::alloc::Global;
use std::test::Fail;

// What is drawn and its seed, with `zeros` for none and zeros in its place; the length that it is cut or filled to;
// where it is changed, and to which bytes; and what reading answers.
const ROWS: &str = "keys 1 16864 144 03 bounds at 144
keys 1 16864 144 80 bounds at 144
keys 1 16864 16 0400000000000000 bounds at 16
keys 1 16864 0 0101010101 bounds at 4
keys 1 16865 0 0101010101 length at 16864
keys 1 16863 0 0101010101 length at 16863
encryptions zeros 96 48 0101010101 bounds at 52
encryptions zeros 96 48 01010101 read";

fn base(alloc: Global, p: &Preset, kind: &str, seed: &str) -> Result<Vec<u8>, Fail> {
    if seed == "zeros" {
        return Ok(Vec::new(alloc));
    }
    let file = drawn(alloc, p, kind, seed.parse::<u64>()?)?;
    Ok(Vec::from_slice(alloc, file.as_slice())?)
}

fn change(file: &mut [u8], at: usize, bytes: &[u8]) {
    let mut place = at;
    for byte in bytes {
        if place < file.len() {
            file[place] = *byte;
            place += 1;
        }
    }
}

fn holds(alloc: Global, p: &Preset, row: &str) -> Result<bool, Fail> {
    let mut words = row.splitn(6, ' ');
    let kind = words.next().ok_or("no kind")?;
    let mut file = base(alloc, p, kind, words.next().ok_or("no seed")?)?;
    file.resize(words.next().ok_or("no length")?.parse::<usize>()?, 0)?;
    let at = words.next().ok_or("no place")?.parse::<usize>()?;
    let bytes = hex::decode(alloc, words.next().ok_or("no bytes")?)?;
    change(file.as_mut_slice(), at, bytes.as_slice());
    let found = answer(alloc, p, kind, file.as_slice())?;
    Ok(found.as_str() == words.next().ok_or("no answer")?)
}

#[test]
fn each_changed_file_has_its_answer(rt: HostRuntime) -> Result<(), Fail> {
    let p8 = Preset::by_id(1).ok_or("no preset")?;
    for row in ROWS.lines() {
        assert!(rt; holds(rt.alloc(), &p8, row)?, "{row}");
    }
    Ok(())
}
