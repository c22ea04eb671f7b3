//! The outside as traits with a written meaning: a store of named files, and a sink of bytes.
#![tactic(auto)]

mod file_store;
mod mem_sink;
mod mem_store;
mod out_sink;
mod pieces;
mod sink;
mod store;

pub use file_store::FileStore;
pub use mem_sink::MemSink;
pub use mem_store::MemStore;
pub use out_sink::OutSink;
pub use pieces::write_pieces;
pub use sink::{Sink, SinkErr};
pub use store::{Call, CallKind, Store, StoreErr};

#[cfg(test)]
mod tests;
