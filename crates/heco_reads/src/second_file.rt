ghost use Rattle.std.specs.Prelude.{◌≡◌, ◌≤◌, IfOk, length};
ghost use Rattle.heco_texts.specs.Answers.{HaveFit, HaveOwnNames, IsRead};
ghost use Rattle.heco_jobs.specs.Stages.{IsThingRead};
ghost use Rattle.heco_jobs.specs.Words.{texts};
ghost use Rattle.heco_reads.specs.SourceFiles.{IsSecondTextRefusal, second_answer};

use crate::values_file::read_inputs;
use heco_jobs::{Outcome, Refusal};
use heco_nums::{Inputs, List, Preset, Shape};
use heco_outside::Store;
use std::alloc::Global;

fn answer(outcome: Outcome) -> Outcome
    ensures { result ≡ second_answer outcome }
{
    match outcome {
        Outcome::Refused(Refusal::InputLong) => Outcome::Refused(Refusal::SecondLong),
        Outcome::Refused(Refusal::InputAt { rule, line }) => {
            Outcome::Refused(Refusal::SecondAt { rule, line })
        }
        Outcome::Refused(Refusal::InputMissing { which }) => {
            Outcome::Refused(Refusal::SecondMissing { which })
        }
        other => other,
    }
}

/// The values that this file word gives to inputs of these shapes, as the second text that does.
pub fn read_second_inputs<S: Store>(
    alloc: Global,
    preset: &Preset,
    shapes: &List<Shape>,
    words: &[String],
    which: u8,
    store: &mut S,
) -> Result<Inputs, Outcome>
    requires count { length shapes.now ≤ 256 }
    requires names { HaveOwnNames shapes.now }
    ensures fit { IfOk result (λ values. HaveFit preset.now.t shapes.now values.rows) }
    ensures read { IsThingRead S.Store (texts words.now) which (IsRead preset.now.t shapes.now) (IsSecondTextRefusal preset.now.t shapes.now) store.old store.new result }
{
    match read_inputs(alloc, preset, shapes, words, which, store) {
        Ok(values) => Ok(values),
        Err(outcome) => Err(answer(outcome)),
    }
}
