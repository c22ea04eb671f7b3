use heco_circuit::{Circuit, read};
use heco_listing::listing;
use std::alloc::Global;
use std::test::Fail;

/// The file of the dot product of eight, in hex.
pub const DOT_OF_EIGHT: &str =
    "4843495201010002000000016100080000000162000800000008040000000000000001050000000208000100000003020000000300000004080002000000050200000005000000060800040000000702000000070000000800010000000173000101000000090000";

/// The file of that name, where each line of `files` is a name and the bytes of a file in hex.
pub fn file_in(alloc: Global, files: &str, name: &str) -> Result<Vec<u8>, Fail> {
    for line in files.lines() {
        let (first, text) = line.split_once(' ').unwrap_or(("", ""));
        if first == name {
            return Ok(hex::decode(alloc, text)?);
        }
    }
    Err("no file".into())
}

/// The circuit of the file of that name.
pub fn circuit_in(alloc: Global, files: &str, name: &str) -> Result<Circuit, Fail> {
    let file = file_in(alloc, files, name)?;
    Ok(read(alloc, file.as_slice())?)
}

fn marked(c: u8) -> u8 {
    if c == b'\n' { b'$' } else { c }
}

/// The listing, with `$` for each line end.
pub fn shown(alloc: Global, c: &Circuit) -> Result<Vec<u8>, Fail> {
    let mut text = Vec::new(alloc);
    for byte in listing(alloc, c)?.as_slice() {
        text.push(marked(*byte))?;
    }
    Ok(text)
}

/// The listing behind a rewriting, which a row may call the same as that before.
pub fn wanted<'a>(before: &'a str, after: &'a str) -> &'a str {
    if after == "same" { before } else { after }
}
