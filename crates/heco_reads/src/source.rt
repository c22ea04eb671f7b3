ghost use Rattle.std.specs.Prelude.{◌≡◌, IfOk};
ghost use Rattle.heco_sources.specs.Sources.{IsSource};
ghost use Rattle.heco_jobs.specs.Stages.{IsThingRead, Judges};
ghost use Rattle.heco_jobs.specs.Words.{texts};
ghost use Rattle.heco_reads.specs.SourceFiles.{HasText, IsSourceRefusal, source_answer};

use heco_jobs::{Outcome, Refusal, read_bytes};
use heco_outside::Store;
use heco_parse::SOURCE_LIMIT;
use heco_sources::SourceErr;
use heco_types::Typed;
use std::alloc::Global;

fn answer(error: SourceErr) -> Outcome
    ensures { result ≡ source_answer error }
{
    match error {
        SourceErr::SourceLong => Outcome::Refused(Refusal::SourceLong),
        SourceErr::At { rule, at } => Outcome::Refused(Refusal::At { rule, at }),
        SourceErr::Memory => Outcome::Memory,
    }
}

fn judge_source(alloc: Global, text: &[u8]) -> Result<Typed, Outcome>
    ensures judged { Judges IsSource IsSourceRefusal text.now result }
    ensures text { IfOk result HasText }
{
    match heco_sources::read_source(alloc, text) {
        Ok(typed) => Ok(typed),
        Err(error) => Err(answer(error)),
    }
}

/// The typed source that this file word holds. Some text spells it, whether or not the store tells which.
pub fn read_source<S: Store>(
    alloc: Global,
    words: &[String],
    which: u8,
    store: &mut S,
) -> Result<Typed, Outcome>
    ensures read { IsThingRead S.Store (texts words.now) which IsSource IsSourceRefusal store.old store.new result }
    ensures text { IfOk result HasText }
{
    // One byte more than a source may have, so that a longer text is seen as longer.
    let limit = SOURCE_LIMIT as u64 + 1;
    let text = read_bytes(alloc, words, which, limit, store)?;
    judge_source(alloc, text.as_slice())
}
