use heco_material::{MatErr, draw_enc, draw_keys, read_enc, read_keys, write_enc, write_keys};
use heco_nums::{Bytes, KeyNeeds, List, Memory, Preset};
use std::alloc::Global;
use std::test::Fail;

// The needs of the dot product of eight.
fn dot_needs(alloc: Global) -> Result<KeyNeeds, Memory> {
    Ok(KeyNeeds {
        relin: true,
        turns: List::from_slice(alloc, [1, 2, 4].as_slice())?,
    })
}

/// The file that is drawn: `keys` for the dot product of eight, else what two inputs are encrypted with.
pub fn drawn(alloc: Global, p: &Preset, kind: &str, seed: u64) -> Result<Bytes, Memory> {
    if kind == "keys" {
        write_keys(alloc, &draw_keys(alloc, p, &dot_needs(alloc)?, seed)?)
    } else {
        write_enc(alloc, &draw_enc(alloc, p, 2, seed)?)
    }
}

fn refusal(alloc: Global, p: &Preset, kind: &str, file: &[u8]) -> Result<Option<MatErr>, Memory> {
    if kind == "keys" {
        Ok(read_keys(alloc, p, &dot_needs(alloc)?, file).err())
    } else {
        Ok(read_enc(alloc, p, 2, file).err())
    }
}

/// What reading the file as that kind answers.
pub fn answer(alloc: Global, p: &Preset, kind: &str, file: &[u8]) -> Result<String, Fail> {
    match refusal(alloc, p, kind, file)? {
        None => Ok(String::from_str(alloc, "read")?),
        Some(e) => Ok(format!(in alloc; "{e}")?),
    }
}
