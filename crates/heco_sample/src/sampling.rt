//! The job goes in steps, each of which owns what one stage gives and lends it to the next: a function that owned all of
//! it would have to show of each value, at each later fault, that it is let go.

ghost use Rattle.std.specs.Prelude.{◌≡◌, ◌<◌, ◌^◌, IfOk, OnOk, List, length, map};
ghost use Rattle.heco_end_to_end.specs.EndToEnd.{IsRunnable};
ghost use Rattle.heco_good.specs.Compiled.{IsPassedOf};
ghost use Rattle.heco_good.specs.Good.{Good};
ghost use Rattle.heco_jobs.specs.Agents.{agents, picking};
ghost use Rattle.heco_jobs.specs.Products.{Prints};
ghost use Rattle.heco_peep.specs.Rules.{Handed};
ghost use Rattle.heco_nums.specs.PresetRows.{preset_of};
ghost use Rattle.heco_sample.specs.Drawn.{drawn_rows, drawn_words, decrypted_text};
ghost use Rattle.heco_sample.specs.SampleTask.{Samples};
ghost use Rattle.heco_sample.specs.Summary.{greatest_bound, summary};
ghost use Rattle.heco_sample_source.specs.SampleText.{sample_text};
ghost use Rattle.heco_sources.specs.Sources.{IsSource};
ghost use Rattle.heco_tasks.specs.DrawnFiles.{drawn_material};
ghost use Rattle.heco_tasks.specs.Running.{Leads};
ghost use Rattle.heco_texts.specs.Answers.{HaveFit};

use crate::chain::drawn_text;
use crate::drawn::values;
use crate::lines::summary;
use crate::source::{passed, plain_text, source};
use heco_circuit::Circuit;
use heco_jobs::{Product, printing};
use heco_nums::{Inputs, Memory};
use heco_peep::Pass;
use heco_sched::Picker;
use heco_types::Typed;
use std::alloc::Global;

// Of one circuit and these values: the summary of the output's line in the clear and of what the chain prints.
fn beside_chain(
    alloc: Global,
    seed: u64,
    circuit: &Circuit,
    values: &Inputs,
    plain: &[u8],
    picker: &mut Box<dyn Picker>,
) -> Result<Product, Memory>
    requires rows { values.now.rows ≡ drawn_rows seed }
    requires fit { HaveFit (preset_of circuit.now.preset).t circuit.now.inputs values.now.rows }
    ensures runs { OnOk result (IsRunnable (preset_of circuit.now.preset) circuit.now (drawn_material circuit.now seed) (drawn_words circuit.now seed)
        (drawn_rows seed)) }
    ensures prints { IfOk result (Prints (summary seed (length circuit.now.gates) (greatest_bound circuit.now) plain.now (decrypted_text circuit.now seed))) }
    ensures leads { OnOk result (Leads circuit.now (picking (rule picker.old) (state picker.old)) (picking (rule picker.new) (state picker.new))) }
    ensures rule { rule picker.new ≡ rule picker.old }
{
    let decrypted = drawn_text(alloc, circuit, seed, values, picker)?;
    let text = summary(alloc, seed, circuit, plain, decrypted.as_slice())?;
    Ok(printing(alloc, text))
}

// The execution of the source in the clear on these values, and then the chain.
fn of_values(
    alloc: Global,
    seed: u64,
    typed: &Typed,
    circuit: &Circuit,
    values: &Inputs,
    picker: &mut Box<dyn Picker>,
) -> Result<Product, Memory>
    requires is { IsSource sample_text typed.now }
    requires good { Good typed.now circuit.now }
    requires rows { values.now.rows ≡ drawn_rows seed }
    ensures samples { (handed left : List Handed) → IsPassedOf typed.now handed circuit.now left → IfOk result (λ p.
        Samples (agents (picking (rule picker.old) (state picker.old)) handed) seed p (agents (picking (rule picker.new) (state picker.new)) left)) }
    ensures rule { rule picker.new ≡ rule picker.old }
{
    let plain = plain_text(alloc, typed, values)?;
    let product = beside_chain(alloc, seed, circuit, values, plain.as_slice(), picker)?;
    Ok(product)
}

// The values that the seed draws, and then all that is made of them.
fn of_circuit(
    alloc: Global,
    seed: u64,
    typed: &Typed,
    circuit: &Circuit,
    picker: &mut Box<dyn Picker>,
) -> Result<Product, Memory>
    requires is { IsSource sample_text typed.now }
    requires good { Good typed.now circuit.now }
    ensures samples { (handed left : List Handed) → IsPassedOf typed.now handed circuit.now left → IfOk result (λ p.
        Samples (agents (picking (rule picker.old) (state picker.old)) handed) seed p (agents (picking (rule picker.new) (state picker.new)) left)) }
    ensures rule { rule picker.new ≡ rule picker.old }
{
    let values = values(alloc, circuit.preset(), seed)?;
    of_values(alloc, seed, typed, circuit, &values, picker)
}

// What the passes make of the source's circuit, and then all that is made with it.
fn of_source(
    alloc: Global,
    seed: u64,
    typed: &Typed,
    picker: &mut Box<dyn Picker>,
    passes: &mut Vec<Box<dyn Pass>>,
) -> Result<Product, Memory>
    requires is { IsSource sample_text typed.now }
    ensures samples { IfOk result (λ p. Samples (agents (picking (rule picker.old) (state picker.old)) (map (λ b. handed b) passes.old.items)) seed p
        (agents (picking (rule picker.new) (state picker.new)) (map (λ b. handed b) passes.new.items))) }
    ensures rule { rule picker.new ≡ rule picker.old }
    ensures rules { map (λ b. (handed b).rule) passes.new.items ≡ map (λ b. (handed b).rule) passes.old.items }
{
    let circuit = passed(alloc, typed, passes)?;
    of_circuit(alloc, seed, typed, &circuit, picker)
}

/// All that `sample` gives for the seed: the summary of the source's execution in the clear and of the whole chain, over
/// what the seed draws. Nothing refuses it: memory alone may be wanting. The range of a seed is asked for so that other
/// crates may lend their picker: of a call that asks nothing the checker supposes that it may make a picker of its own.
pub fn sample_product(
    alloc: Global,
    seed: u64,
    picker: &mut Box<dyn Picker>,
    passes: &mut Vec<Box<dyn Pass>>,
) -> Result<Product, Memory>
    requires seed { seed < 2 ^ 64 }
    ensures samples { IfOk result (λ p. Samples (agents (picking (rule picker.old) (state picker.old)) (map (λ b. handed b) passes.old.items)) seed p
        (agents (picking (rule picker.new) (state picker.new)) (map (λ b. handed b) passes.new.items))) }
    ensures rule { rule picker.new ≡ rule picker.old }
    ensures rules { map (λ b. (handed b).rule) passes.new.items ≡ map (λ b. (handed b).rule) passes.old.items }
{
    let typed = source(alloc)?;
    of_source(alloc, seed, &typed, picker, passes)
}
