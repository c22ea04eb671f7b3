//! The source of `sample`, its circuit and its execution: nothing refuses them, so that memory alone may be wanting.

ghost use Rattle.std.specs.Prelude.{◌≡◌, IfOk, Ok, length, map};
ghost use Rattle.heco_eval.specs.Typed.{outputs_of};
ghost use Rattle.heco_good.specs.Compiled.{IsCircuitOf, IsPassedOf};
ghost use Rattle.heco_good.specs.Good.{modulus};
ghost use Rattle.heco_headline.specs.Headline.{IsPlainText};
ghost use Rattle.heco_peep.specs.NoWorse.{HasFewBytes};
ghost use Rattle.heco_sample_source.specs.SampleText.{sample_text};
ghost use Rattle.heco_sources.specs.Inputs.{input_shapes, output_shapes};
ghost use Rattle.heco_sources.specs.Sources.{IsSource};
ghost use Rattle.heco_texts.specs.Answers.{HaveFit};

use heco_circuit::Circuit;
use heco_compile::{CompileErr, compile_typed};
use heco_eval::{EvalErr, plain};
use heco_files::print_outputs;
use heco_good::passed_circuits_are_good;
use heco_nums::{Bytes, Inputs, Memory, Outputs};
use heco_peep::{Pass, run_passes};
use heco_sources::{SourceErr, read_source};
use heco_types::Typed;
use std::alloc::Global;

// The one error of a reading that nothing refuses.
fn unread(error: SourceErr) -> Memory
    requires { error ≡ SourceErr.Memory }
{
    let _ = error;
    Memory
}

// The one error of a compilation that nothing refuses.
fn not_compiled(error: CompileErr) -> Memory
    requires { error ≡ CompileErr.Memory }
{
    let _ = error;
    Memory
}

// The one error of an execution that nothing refuses.
fn not_executed(error: EvalErr) -> Memory
    requires { error ≡ EvalErr.Memory }
{
    let _ = error;
    Memory
}

#[tactic(auto, unfolding(heco_sample_source::specs::SampleText::sample_text))]
fn text() -> &'static [u8]
    ensures { result.now ≡ sample_text }
{
    b"params q512;\nfn dot(in a[512], in b[512], out s) { for i in 0..512 { s += a[i]*b[i]; } }\n".as_slice()
}

/// The source, typed.
pub fn source(alloc: Global) -> Result<Typed, Memory>
    ensures { IfOk result (IsSource sample_text) }
{
    match read_source(alloc, text()) {
        Ok(typed) => Ok(typed),
        Err(error) => Err(unread(error)),
    }
}

// The circuit that it is compiled to.
fn circuit(alloc: Global, typed: &Typed) -> Result<Circuit, Memory>
    requires { IsSource sample_text typed.now }
    ensures circuit { IfOk result (λ c. IsCircuitOf typed.now c) }
    ensures short { IfOk result HasFewBytes }
{
    match compile_typed(alloc, typed) {
        Ok(circuit) => Ok(circuit),
        Err(error) => Err(not_compiled(error)),
    }
}

/// What the passes make of the circuit that it is compiled to.
pub fn passed(
    alloc: Global,
    typed: &Typed,
    passes: &mut Vec<Box<dyn Pass>>,
) -> Result<Circuit, Memory>
    requires { IsSource sample_text typed.now }
    ensures passed { IfOk result (λ c. IsPassedOf typed.now (map (λ b. handed b) passes.old.items) c (map (λ b. handed b) passes.new.items)) }
    ensures rules { map (λ b. (handed b).rule) passes.new.items ≡ map (λ b. (handed b).rule) passes.old.items }
{
    let circuit = circuit(alloc, typed)?;
    passed_circuits_are_good();
    run_passes(alloc, circuit, passes)
}

fn executed(alloc: Global, typed: &Typed, values: &Inputs) -> Result<Outputs, Memory>
    requires is { IsSource sample_text typed.now }
    requires fit { HaveFit (modulus typed.now) (input_shapes typed.now) values.now.rows }
    ensures outputs { IfOk result (λ out. outputs_of typed.now values.now.rows ≡ Ok out.rows) }
    ensures count { IfOk result (λ out. length out.rows ≡ length (output_shapes typed.now)) }
{
    match plain(alloc, typed, values) {
        Ok(outputs) => Ok(outputs),
        Err(error) => Err(not_executed(error)),
    }
}

/// The text of what its execution on these values gives.
pub fn plain_text(alloc: Global, typed: &Typed, values: &Inputs) -> Result<Bytes, Memory>
    requires is { IsSource sample_text typed.now }
    requires fit { HaveFit (modulus typed.now) (input_shapes typed.now) values.now.rows }
    ensures { IfOk result (IsPlainText typed.now values.now.rows) }
{
    let outputs = executed(alloc, typed, values)?;
    print_outputs(alloc, typed.outputs(), &outputs)
}
