ghost use Rattle.std.specs.Prelude.{◌≡◌, OnErr, OnOk, IsErrOf, true, []};
ghost use Rattle.heco_outside.specs.declared.sink.SinkErr.TheVariants.{Failed};
ghost use Rattle.heco_outside.specs.Causes.{SinkCause, Undisturbed};
ghost use Rattle.heco_outside.specs.Calls.{Wrote};
ghost use Rattle.heco_outside.specs.Planned.{SinkFailedWhere};

use crate::{Sink, SinkErr};
use heco_nums::{Bytes, List};
use std::alloc::Global;

/// A sink in memory. The calls whose numbers, from 1, are listed fail and take nothing; a call that finds no memory isn't counted.
#[derive(Debug, Drop)]
pub struct MemSink {
    bytes: Bytes,
    fails: List<u64>,
    calls: u64,
    faults: u64,
    shortages: u64,
}

impl MemSink {
    ghost use Rattle.heco_outside.specs.MemSinks.{sink_bytes, sink_fails, sink_calls};

    /// A sink that has taken nothing.
    pub fn new(alloc: Global, fails: List<u64>) -> MemSink
        ensures bytes { sink_bytes result ≡ [] }
        ensures fails { sink_fails result ≡ fails }
        ensures calls { sink_calls result ≡ 0 }
    {
        MemSink {
            bytes: Bytes::new(alloc),
            fails,
            calls: 0,
            faults: 0,
            shortages: 0,
        }
    }

    /// The bytes taken.
    pub fn bytes(&self) -> &[u8]
        ensures { result.now ≡ sink_bytes self.now }
    {
        self.bytes.as_slice()
    }
}

impl Sink for MemSink {
    ghost use Rattle.heco_outside.specs.MemSinks.{sink_bytes, sink_fails, sink_calls, IsSteady, write_fails, Counts};

    ghost tells = { true };

    ghost taken = { λ m. m.bytes };

    ghost faults = { λ m. m.faults };

    ghost shortages = { λ m. m.shortages };

    ghost steady = { λ m. m.fails ≡ [] };

    fn write_all(&mut self, bytes: &[u8]) -> Result<(), SinkErr>
        ensures cause { SinkCause self.old.faults self.new.faults self.old.shortages self.new.shortages result }
        ensures wrote { Wrote (sink_bytes self.old) (sink_bytes self.new) bytes.now result }
        ensures steady { IsSteady self.old → Undisturbed (IsSteady self.new) (IsErrOf result Failed) ⊥ self.old.faults self.new.faults }
        // it fails exactly where its number is listed, and then takes nothing
        ensures failed { SinkFailedWhere (write_fails self.old) result }
        ensures unchanged { OnErr result (sink_bytes self.new ≡ sink_bytes self.old) }
        ensures counted { Counts (sink_calls self.old) (sink_calls self.new) result }
        ensures fails { sink_fails self.new ≡ sink_fails self.old }
        // the counts rise at a fault and at want of memory alone
        ensures quiet { OnOk result ((self.new.faults ≡ self.old.faults) × (self.new.shortages ≡ self.old.shortages)) }
    {
        let number = self.calls.saturating_add(1);
        if self.fails.as_slice().contains(&number) {
            self.calls = number;
            self.faults = self.faults.saturating_add(1);
            return Err(SinkErr::Failed);
        }
        match self.bytes.extend_from_slice(bytes) {
            Ok(()) => {
                self.calls = number;
                Ok(())
            }
            Err(_) => {
                self.shortages = self.shortages.saturating_add(1);
                Err(SinkErr::Memory)
            }
        }
    }
}
