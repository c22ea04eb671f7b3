ghost use Rattle.std.specs.Prelude.{◌≡◌};
ghost use Rattle.heco_jobs.specs.Endings.{read_fault_of};
ghost use Rattle.heco_jobs.specs.Stages.{IsBytesRead};
ghost use Rattle.heco_jobs.specs.Words.{texts};

use crate::Outcome;
use crate::words::name_of;
use heco_nums::Bytes;
use heco_outside::{Store, StoreErr};
use std::alloc::Global;

fn read_fault(error: StoreErr, which: u8) -> Outcome
    ensures { result ≡ read_fault_of which error }
{
    match error {
        StoreErr::Failed => Outcome::ReadFault { which },
        StoreErr::Memory => Outcome::Memory,
    }
}

/// The first bytes of the file of a word, at most `limit` of them.
pub fn read_bytes<S: Store>(
    alloc: Global,
    words: &[String],
    which: u8,
    limit: u64,
    store: &mut S,
) -> Result<Bytes, Outcome>
    ensures { IsBytesRead S.Store (texts words.now) which limit store.old store.new result }
{
    match store.read(alloc, name_of(words, which), limit) {
        Ok(bytes) => Ok(bytes),
        Err(error) => Err(read_fault(error, which)),
    }
}
