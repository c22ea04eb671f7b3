use crate::files::{answer, file_of, is_written_again};
use heco_nums::{Bytes, Memory};
use std::alloc::Global;
use std::test::Fail;

// The file that starts and ends as these bytes, with so many plain vectors of zeros between.
fn between(alloc: Global, start: &[u8], count: u32, end: &[u8]) -> Result<Bytes, Memory> {
    let mut file = Bytes::from_slice(alloc, start)?;
    file.extend_from_slice(&count.to_be_bytes())?;
    for _ in 0..count {
        file.extend_from_slice(&[0; 32])?;
    }
    file.extend_from_slice(end)?;
    Ok(file)
}

// The circuit whose one output is its one input, beside so many vectors.
fn with_vectors(alloc: Global, count: u32) -> Result<Bytes, Fail> {
    let weighs = file_of(alloc, "weighs")?;
    let copy = file_of(alloc, "copy")?;
    let start = weighs.as_slice().split_at(15.min(weighs.len())).0;
    let end = copy.as_slice().split_at(15.min(copy.len())).1;
    Ok(between(alloc, start, count, end)?)
}

fn is_kept(alloc: Global, count: u32) -> Result<bool, Fail> {
    let file = with_vectors(alloc, count)?;
    is_written_again(alloc, file.as_slice())
}

fn answer_of(alloc: Global, count: u32) -> Result<String, Fail> {
    let file = with_vectors(alloc, count)?;
    answer(alloc, file.as_slice())
}

#[test]
fn a_circuit_of_256_vectors_is_read_and_written_again(rt: HostRuntime) -> Result<(), Fail> {
    assert!(rt; is_kept(rt.alloc(), 256)?);
    Ok(())
}

#[test]
fn one_of_257_vectors_is_refused_at_their_number(rt: HostRuntime) -> Result<(), Fail> {
    assert_eq!(rt; answer_of(rt.alloc(), 257)?.as_str(), "malformed at 15");
    Ok(())
}
