use crate::files::{answer, drawn};
use heco_nums::Preset;
use sha2::{Digest, Sha256};
use std::alloc::Global;
use std::test::Fail;

// What is drawn, its seed, the length of its file, and how the file's SHA-256 begins.
const ROWS: &str = "keys 1 16864 61d915a01072a1c2
keys 7 16864 07b3e5732e8da944
encryptions 1 96 dddc1ff83e2ecb10
encryptions 7 96 a1231b44a515a378";

fn digest(alloc: Global, bytes: &[u8]) -> Result<String, Fail> {
    let digest = Sha256::digest(bytes);
    Ok(hex::encode(alloc, digest.as_slice())?)
}

// Whether the file has this length and this digest, and is read.
fn is_file(
    alloc: Global,
    p: &Preset,
    kind: &str,
    file: &[u8],
    length: usize,
    start: &str,
) -> Result<bool, Fail> {
    if file.len() != length || !digest(alloc, file)?.as_str().starts_with(start) {
        return Ok(false);
    }
    Ok(answer(alloc, p, kind, file)?.as_str() == "read")
}

fn holds(alloc: Global, p: &Preset, row: &str) -> Result<bool, Fail> {
    let mut words = row.split(' ');
    let kind = words.next().ok_or("no kind")?;
    let seed = words.next().ok_or("no seed")?.parse::<u64>()?;
    let length = words.next().ok_or("no length")?.parse::<usize>()?;
    let start = words.next().ok_or("no digest")?;
    let file = drawn(alloc, p, kind, seed)?;
    is_file(alloc, p, kind, file.as_slice(), length, start)
}

#[test]
fn each_drawn_file_has_its_digest(rt: HostRuntime) -> Result<(), Fail> {
    let p8 = Preset::by_id(1).ok_or("no preset")?;
    for row in ROWS.lines() {
        assert!(rt; holds(rt.alloc(), &p8, row)?, "{row}");
    }
    Ok(())
}
