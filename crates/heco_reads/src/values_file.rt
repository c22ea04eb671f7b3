ghost use Rattle.std.specs.Prelude.{◌≡◌, ◌≤◌, IfOk, length};
ghost use Rattle.heco_sources.specs.Inputs.{IsInput};
ghost use Rattle.heco_texts.specs.Answers.{HaveFit, HaveOwnNames, IsRead};
ghost use Rattle.heco_jobs.specs.Stages.{IsThingRead, Judges};
ghost use Rattle.heco_jobs.specs.Words.{texts};
ghost use Rattle.heco_reads.specs.SourceFiles.{IsTextRefusal, IsValuesRefusal, text_answer};

use heco_files::InputErr;
use heco_jobs::{Outcome, Refusal, read_bytes};
use heco_nums::{Inputs, List, Preset, Shape};
use heco_outside::Store;
use heco_types::Typed;
use std::alloc::Global;

// One byte more than a text of inputs may have.
const INPUT_LIMIT: u64 = 4_194_305;

fn answer(error: InputErr) -> Outcome
    ensures { result ≡ text_answer error }
{
    match error {
        InputErr::InputLong => Outcome::Refused(Refusal::InputLong),
        InputErr::At { rule, line } => Outcome::Refused(Refusal::InputAt { rule, line }),
        InputErr::InputMissing { which } => Outcome::Refused(Refusal::InputMissing { which }),
        InputErr::Memory => Outcome::Memory,
    }
}

// ---- the values of a source's inputs

fn judge_values(alloc: Global, typed: &Typed, text: &[u8]) -> Result<Inputs, Outcome>
    ensures { Judges (IsInput typed.now) (IsValuesRefusal typed.now) text.now result }
{
    match heco_sources::read_values(alloc, typed, text) {
        Ok(values) => Ok(values),
        Err(error) => Err(answer(error)),
    }
}

/// The values that this file word gives to the inputs of the source.
pub fn read_values_file<S: Store>(
    alloc: Global,
    typed: &Typed,
    words: &[String],
    which: u8,
    store: &mut S,
) -> Result<Inputs, Outcome>
    ensures { IsThingRead S.Store (texts words.now) which (IsInput typed.now) (IsValuesRefusal typed.now) store.old store.new result }
{
    let text = read_bytes(alloc, words, which, INPUT_LIMIT, store)?;
    judge_values(alloc, typed, text.as_slice())
}

// ---- the values of inputs of these shapes

fn judge_inputs(
    alloc: Global,
    preset: &Preset,
    shapes: &List<Shape>,
    text: &[u8],
) -> Result<Inputs, Outcome>
    requires count { length shapes.now ≤ 256 }
    requires names { HaveOwnNames shapes.now }
    ensures fit { IfOk result (λ values. HaveFit preset.now.t shapes.now values.rows) }
    ensures judged { Judges (IsRead preset.now.t shapes.now) (IsTextRefusal preset.now.t shapes.now) text.now result }
{
    match heco_files::read_inputs(alloc, preset, shapes, text) {
        Ok(values) => Ok(values),
        Err(error) => Err(answer(error)),
    }
}

/// The values that this file word gives to inputs of these shapes.
pub fn read_inputs<S: Store>(
    alloc: Global,
    preset: &Preset,
    shapes: &List<Shape>,
    words: &[String],
    which: u8,
    store: &mut S,
) -> Result<Inputs, Outcome>
    requires count { length shapes.now ≤ 256 }
    requires names { HaveOwnNames shapes.now }
    ensures fit { IfOk result (λ values. HaveFit preset.now.t shapes.now values.rows) }
    ensures read { IsThingRead S.Store (texts words.now) which (IsRead preset.now.t shapes.now) (IsTextRefusal preset.now.t shapes.now) store.old store.new result }
{
    let text = read_bytes(alloc, words, which, INPUT_LIMIT, store)?;
    judge_inputs(alloc, preset, shapes, text.as_slice())
}
