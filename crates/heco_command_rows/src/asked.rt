ghost use Rattle.std.specs.Prelude.{[], false, None};

use heco_nums::{Bytes, List, Memory};
use heco_outside::{MemSink, MemStore, Sink, SinkErr, Store, StoreErr};
use std::alloc::Global;

/// Files in memory, and a line of name and limit for each read.
#[derive(Drop)]
pub struct AskedStore {
    files: MemStore,
    reads: Bytes,
}

fn push_line(reads: &mut Bytes, name: &str, limit: u64) -> Result<(), Memory> {
    let mut digits = itoa::Buffer::new();
    reads.extend_from_slice(name.as_bytes())?;
    reads.push(b' ')?;
    reads.extend_from_slice(digits.format(limit).as_bytes())?;
    reads.push(b'$')
}

impl AskedStore {
    /// The files, of which none was asked for.
    pub fn new(alloc: Global, files: MemStore) -> AskedStore {
        AskedStore {
            files,
            reads: Bytes::new(alloc),
        }
    }

    /// The lines of the reads since the last call.
    pub fn take_reads(&mut self, alloc: Global) -> Bytes {
        std::mem::replace(&mut self.reads, Bytes::new(alloc))
    }
}

impl Store for AskedStore {
    ghost use Rattle.heco_outside.specs.MemStores.{mem_faults};

    ghost tells = { false };

    ghost file = { λ _ _. None };

    ghost calls = { λ _. [] };

    ghost faults = { λ a. mem_faults a.files };

    ghost steady = { λ _. ⊥ };

    fn read(&mut self, alloc: Global, name: &str, limit: u64) -> Result<Bytes, StoreErr> {
        push_line(&mut self.reads, name, limit)?;
        self.files.read(alloc, name, limit)
    }

    fn write(&mut self, alloc: Global, name: &str, bytes: &[u8]) -> Result<(), StoreErr> {
        self.files.write(alloc, name, bytes)
    }
}

/// A sink in memory that counts the pieces it was given.
#[derive(Drop)]
pub struct AskedSink {
    taken: MemSink,
    pub pieces: u64,
}

impl AskedSink {
    pub fn new(alloc: Global) -> AskedSink {
        AskedSink {
            taken: MemSink::new(alloc, List::new(alloc)),
            pieces: 0,
        }
    }
}

impl Sink for AskedSink {
    ghost use Rattle.heco_outside.specs.MemSinks.{sink_bytes};

    ghost tells = { false };

    ghost taken = { λ _. [] };

    ghost faults = { λ a. a.taken.faults };

    ghost shortages = { λ a. a.taken.shortages };

    ghost steady = { λ _. ⊥ };

    fn write_all(&mut self, bytes: &[u8]) -> Result<(), SinkErr> {
        self.pieces = self.pieces.saturating_add(1);
        self.taken.write_all(bytes)
    }
}
