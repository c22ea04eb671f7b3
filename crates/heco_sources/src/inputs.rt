ghost use Rattle.std.specs.Prelude.{◌≡◌, ◌≢◌, Ok, Err, IfOk, IfErr};
ghost use Rattle.heco_nums.specs.declared.shape.Values.{Values};
ghost use Rattle.heco_texts.specs.Answers.{Gives, HaveFit};
ghost use Rattle.heco_texts.specs.declared.error.InputErr.{InputErr as Refusal};
ghost use Rattle.heco_texts.specs.declared.error.InputErr.TheVariants as e;
ghost use Rattle.heco_sources.specs.Inputs.{modulus_of, input_shapes, IsInput, IsInputRefusal};

use heco_nums::Inputs;
use heco_texts::{InputErr, read_inputs};
use heco_types::Typed;
use std::alloc::Global;

/// The values that the text gives to the inputs of the source: one row for each, in order.
///
/// The refusals are those of `heco_texts::read_inputs`.
pub fn read_values(alloc: Global, t: &Typed, text: &[u8]) -> Result<Inputs, InputErr>
    ensures read { IfOk result (IsInput t.now text.now) }
    ensures fit { IfOk result (λ v. HaveFit (modulus_of t.now) (input_shapes t.now) v.rows) }
    ensures refused { IfErr result (IsInputRefusal t.now text.now) }
    ensures reads { (v : Values) → IsInput t.now text.now v → Gives result (Ok v) }
    ensures refuses { (err : Refusal) → err ≢ e.Memory → IsInputRefusal t.now text.now err → Gives result (Err err) }
{
    // A typed source has at most 256 inputs, whose names differ.
    let _valid = t.source();
    read_inputs(alloc, t.preset(), t.inputs(), text)
}
