use heco_circuit_rows::DOT_OF_EIGHT;
use heco_nums::List;
use heco_outside::{MemSink, MemStore};
use std::alloc::{AllocError, Global};
use std::test::Fail;

// The circuit that copies one number.
const COPY: &str = "4843495201010001000000017800010000000000010000000179000101000000000000";

// The circuit of the number 5 alone.
const FIVE: &str = "4843495201010000000000000001000000017900010000000005";

fn calls(alloc: Global, number: u64) -> Result<List<u64>, Fail> {
    let mut calls = List::new(alloc);
    if number > 0 {
        calls.push(number)?;
    }
    Ok(calls)
}

/// A sink whose call of that number fails, none for 0.
pub fn sink(alloc: Global, fails: u64) -> Result<MemSink, Fail> {
    Ok(MemSink::new(alloc, calls(alloc, fails)?))
}

fn put(alloc: Global, store: &mut MemStore, name: &str, hexadecimal: &str) -> Result<(), Fail> {
    let bytes = hex::decode(alloc, hexadecimal)?;
    store.put(name, bytes.as_slice())?;
    Ok(())
}

/// A store with circuits, whose call of that number fails, none for 0.
pub fn circuits(alloc: Global, fails: u64) -> Result<MemStore, Fail> {
    let mut store = MemStore::new(alloc, calls(alloc, fails)?);
    put(alloc, &mut store, "dot", DOT_OF_EIGHT)?;
    put(alloc, &mut store, "copy", COPY)?;
    put(alloc, &mut store, "7", COPY)?;
    put(alloc, &mut store, "five", FIVE)?;
    put(alloc, &mut store, "cut", DOT_OF_EIGHT.split_at(206).0)?;
    Ok(store)
}

/// The words of a line.
pub fn words_of(alloc: Global, text: &str) -> Result<Vec<String>, AllocError> {
    let mut words = Vec::new(alloc);
    for word in text.split_whitespace() {
        words.push(String::from_str(alloc, word)?)?;
    }
    Ok(words)
}
