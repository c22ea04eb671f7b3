use heco_nums::{Bytes, Memory};
use std::alloc::Global;

// The byte that a byte of a row stands for.
fn meant(c: u8) -> u8 {
    match c {
        b'~' => b'\n',
        b'^' => b'\r',
        b'`' => b'\t',
        _ => c,
    }
}

/// The text that a field of a row stands for.
pub fn text_of(alloc: Global, field: &str) -> Result<Bytes, Memory> {
    let mut text = Bytes::new(alloc);
    for c in field.as_bytes() {
        text.push(meant(*c))?;
    }
    Ok(text)
}
