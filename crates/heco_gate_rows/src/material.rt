use heco_nums::Memory;
use std::alloc::Global;

/// A file of zeros but for these bytes, each behind its offset.
pub fn file(alloc: Global, len: usize, bytes: &[(usize, u8)]) -> Result<Vec<u8>, Memory> {
    let mut out = vec![in alloc; 0u8; len]?;
    for (at, byte) in bytes {
        if *at < out.len() {
            out[*at] = *byte;
        }
    }
    Ok(out)
}

/// Key material of p8 for one switch key: the secret is 1 - x^3 + x^5, and few words and errors are not 0.
pub fn key_file(alloc: Global) -> Result<Vec<u8>, Memory> {
    let bytes = [
        (0, 1),
        (3, 255),
        (5, 1),
        (23, 5),
        (25, 127),
        (144, 1),
        (146, 254),
        (161, 200),
        (167, 9),
        (288, 1),
        (601, 77),
        (1010, 255),
        (4335, 2),
    ];
    file(alloc, 4336, bytes.as_slice())
}

/// What one input of p8 is encrypted with: u is 1 - x^2 + x^7.
pub fn first_words(alloc: Global) -> Result<Vec<u8>, Memory> {
    let bytes = [
        (0, 1),
        (2, 255),
        (7, 1),
        (16, 2),
        (20, 254),
        (32, 255),
        (40, 1),
    ];
    file(alloc, 48, bytes.as_slice())
}

/// What another input of p8 is encrypted with: u is x + x^4.
pub fn second_words(alloc: Global) -> Result<Vec<u8>, Memory> {
    let bytes = [(1, 1), (4, 1), (17, 1), (33, 254)];
    file(alloc, 48, bytes.as_slice())
}
