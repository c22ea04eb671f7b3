ghost use Rattle.std.specs.Prelude.{◌≡◌, ◌≤◌, [], false, OnOk};
ghost use Rattle.heco_outside.specs.Causes.{Rose, SinkCause};
ghost use Rattle.heco_outside.specs.Calls.{HeldWrote};

use crate::{Sink, SinkErr};
use std::io::Write;

/// A writer of the system. As a sink it tells no bytes; it never answers want of memory.
#[derive(Drop)]
pub struct OutSink<W: Write> {
    writer: W,
    faults: u64,
}

impl<W: Write> OutSink<W> {
    ghost use Rattle.heco_outside.specs.OutSinks.{writer_of, faults_of};

    pub fn new(writer: W) -> OutSink<W>
        ensures writer { writer_of result ≡ writer }
        ensures faults { faults_of result ≡ 0 }
    {
        OutSink { writer, faults: 0 }
    }

    // Counts a failed write.
    fn fault(&mut self) -> SinkErr
        ensures answer { result ≡ SinkErr.Failed }
        ensures writer { writer_of self.new ≡ writer_of self.old }
        ensures later { faults_of self.old ≤ faults_of self.new }
        ensures rose { Rose (faults_of self.old) (faults_of self.new) }
    {
        self.faults = self.faults.saturating_add(1);
        SinkErr::Failed
    }
}

impl<W: Write> Sink for OutSink<W> {
    ghost use Rattle.heco_outside.specs.OutSinks.{writer_of, faults_of};

    ghost tells = { false };

    ghost taken = { λ s. [] };

    ghost faults = { λ s. s.faults };

    ghost shortages = { λ s. 0 };

    ghost steady = { λ s. ⊥ };

    fn write_all(&mut self, bytes: &[u8]) -> Result<(), SinkErr>
        ensures cause { SinkCause (faults_of self.old) (faults_of self.new) 0 0 result }
        // the count rises at a fault alone
        ensures quiet { OnOk result (faults_of self.new ≡ faults_of self.old) }
        // what the writer holds, where that is known, grew by the piece or by a prefix of it
        ensures held { HeldWrote (W.contents (writer_of self.old)) (W.contents (writer_of self.new)) bytes.now result }
    {
        let mut rest = bytes;
        while !rest.is_empty() {
            match self.writer.write(rest) {
                Ok(0) => return Err(self.fault()),
                Ok(count) => rest = &rest[count..],
                Err(_) => return Err(self.fault()),
            }
        }
        Ok(())
    }
}
