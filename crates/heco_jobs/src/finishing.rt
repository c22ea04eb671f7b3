ghost use Rattle.std.specs.Prelude.{◌≡◌, ◌≤◌, [], IsTrue, is_some, false};
ghost use Rattle.heco_jobs.specs.Endings.{Printed, Writes, write_fault_of, print_fault_of};
ghost use Rattle.heco_jobs.specs.Laws.{IsOkOrMemory, Calmly};
ghost use Rattle.heco_jobs.specs.Outsides.{outside};
ghost use Rattle.heco_jobs.specs.Plans.{IsFinishCause};
ghost use Rattle.heco_jobs.specs.Words.{texts};

use crate::Outcome;
use crate::product::Planned;
use crate::words::name_of;
use heco_nums::Bytes;
use heco_outside::{Sink, SinkErr, Store, StoreErr};
use std::alloc::Global;

fn write_fault(error: StoreErr, which: u8) -> Outcome
    ensures { result ≡ write_fault_of which error }
{
    match error {
        StoreErr::Failed => Outcome::WriteFault { which },
        StoreErr::Memory => Outcome::Memory,
    }
}

fn print_fault(error: SinkErr) -> Outcome
    ensures { result ≡ print_fault_of error }
{
    match error {
        SinkErr::Failed => Outcome::WriteFault { which: 0 },
        SinkErr::Memory => Outcome::Memory,
    }
}

// Writes the text in one piece, where there is one.
fn print<O: Sink>(text: &Option<Bytes>, out: &mut O) -> Outcome
    ensures cause { IsFinishCause [] text.now 0 0 (O.faults out.old) (O.faults out.new) result }
    ensures told { IsTrue O.tells → Printed text.now (O.taken out.old) (O.taken out.new) (O.shortages out.old) (O.shortages out.new) result }
    ensures steady { O.steady out.old → Calmly (O.faults out.old) (O.faults out.new) result }
    ensures silent { is_some text.now ≡ false → out.new ≡ out.old }
{
    let Some(text) = text else {
        return Outcome::Ok;
    };
    match out.write_all(text.as_slice()) {
        Ok(()) => Outcome::Ok,
        Err(error) => print_fault(error),
    }
}

/// Writes the files in order up to the first that fails, and then prints.
pub fn finish<S: Store, O: Sink>(
    alloc: Global,
    words: &[String],
    writes: &[Planned],
    text: &Option<Bytes>,
    store: &mut S,
    out: &mut O,
) -> Outcome
    ensures later { S.faults store.old ≤ S.faults store.new }
    ensures cause { IsFinishCause writes.now text.now (S.faults store.old) (S.faults store.new) (O.faults out.old) (O.faults out.new) result }
    ensures told { IsTrue S.tells → IsTrue O.tells → Writes (texts words.now) writes.now text.now (outside S.Store O.Sink store.old out.old) (outside S.Store O.Sink store.new out.new) result }
    ensures steady { S.steady store.old → O.steady out.old → IsOkOrMemory result × (S.faults store.new ≡ S.faults store.old) × (O.faults out.new ≡ O.faults out.old) }
    ensures silent { is_some text.now ≡ false → out.new ≡ out.old }
{
    let [first, rest @ ..] = writes else {
        return print(text, out);
    };
    match store.write(alloc, name_of(words, first.which), first.bytes.as_slice()) {
        Ok(()) => finish(alloc, words, rest, text, store, out),
        Err(error) => write_fault(error, first.which),
    }
}
