ghost use Rattle.std.specs.Prelude.{◌≡◌, IfErr, List, map};
ghost use Rattle.heco_good.specs.Compiled.{IsPassedOf};
ghost use Rattle.heco_material.specs.KeyLists.{lists_of};
ghost use Rattle.heco_peep.specs.Rules.{Handed};
ghost use Rattle.heco_nums.specs.PresetRows.{preset_of};
ghost use Rattle.heco_reads.specs.SourceFiles.{HasText};
ghost use Rattle.heco_syntax.specs.declared.tree.Source.{Source};
ghost use Rattle.heco_texts.specs.Answers.{HaveFit};
ghost use Rattle.heco_jobs.specs.Agents.{agents, picking};
ghost use Rattle.heco_jobs.specs.Laws.{IsLeft};
ghost use Rattle.heco_jobs.specs.Stages.{IsGathered};
ghost use Rattle.heco_jobs.specs.Words.{texts};
ghost use Rattle.heco_exec.specs.Chain.{AreKeysFor};
ghost use Rattle.heco_exec.specs.ExecTask.{exec_plan, exec_job, accepted_job, inputs_job, keys_job, encryptions_job};

use crate::compile::passed;
use heco_circuit::Circuit;
use heco_exec::{chain_product, read_key_words};
use heco_jobs::{Outcome, Product};
use heco_material::KeyWords;
use heco_nums::Inputs;
use heco_outside::Store;
use heco_peep::Pass;
use heco_reads::{read_encryptions, read_inputs, read_source};
use heco_sched::Picker;
use heco_tasks::{input_count, inputs_of};
use heco_types::Typed;
use std::alloc::Global;

// All behind the key material, whatever source the circuit is good for.
fn gather_encryptions<S: Store>(
    alloc: Global,
    circuit: &Circuit,
    values: &Inputs,
    k: &KeyWords,
    words: &[String],
    store: &mut S,
    picker: &mut Box<dyn Picker>,
) -> Result<Product, Outcome>
    requires fit { HaveFit (preset_of circuit.now.preset).t circuit.now.inputs values.now.rows }
    requires keys { AreKeysFor circuit.now k.now }
    ensures gathered { (s : Source) (handed left : List Handed) → IsPassedOf s handed circuit.now left → IsGathered S.Store (texts words.now) exec_plan
        (encryptions_job (agents (picking (rule picker.old) (state picker.old)) handed) s values.now (lists_of k.now))
        (agents (picking (rule picker.new) (state picker.new)) left) store.old store.new result }
    ensures rule { rule picker.new ≡ rule picker.old }
    ensures left { IfErr result (λ outcome. IsLeft outcome picker.old picker.new) }
{
    let preset = circuit.preset();
    let material = read_encryptions(alloc, preset, input_count(circuit), words, 4, store)?;
    let product = chain_product(alloc, circuit, k, &material, values, picker)?;
    Ok(product)
}

// All behind the values.
fn gather_keys<S: Store>(
    alloc: Global,
    circuit: &Circuit,
    values: &Inputs,
    words: &[String],
    store: &mut S,
    picker: &mut Box<dyn Picker>,
) -> Result<Product, Outcome>
    requires { HaveFit (preset_of circuit.now.preset).t circuit.now.inputs values.now.rows }
    ensures gathered { (s : Source) (handed left : List Handed) → IsPassedOf s handed circuit.now left → IsGathered S.Store (texts words.now) exec_plan
        (keys_job (agents (picking (rule picker.old) (state picker.old)) handed) s values.now) (agents (picking (rule picker.new) (state picker.new)) left) store.old store.new result }
    ensures rule { rule picker.new ≡ rule picker.old }
    ensures left { IfErr result (λ outcome. IsLeft outcome picker.old picker.new) }
{
    let k = read_key_words(alloc, circuit, words, 3, store)?;
    gather_encryptions(alloc, circuit, values, &k, words, store, picker)
}

// All behind the source.
fn gather_inputs<S: Store>(
    alloc: Global,
    circuit: &Circuit,
    words: &[String],
    store: &mut S,
    picker: &mut Box<dyn Picker>,
) -> Result<Product, Outcome>
    ensures gathered { (s : Source) (handed left : List Handed) → IsPassedOf s handed circuit.now left → IsGathered S.Store (texts words.now) exec_plan
        (inputs_job (agents (picking (rule picker.old) (state picker.old)) handed) s) (agents (picking (rule picker.new) (state picker.new)) left) store.old store.new result }
    ensures rule { rule picker.new ≡ rule picker.old }
    ensures left { IfErr result (λ outcome. IsLeft outcome picker.old picker.new) }
{
    let preset = circuit.preset();
    let values = read_inputs(alloc, preset, inputs_of(circuit), words, 2, store)?;
    gather_keys(alloc, circuit, &values, words, store, picker)
}

// All behind the reading of the source, which is judged wholly before anything else is read.
fn gather_accepted<S: Store>(
    alloc: Global,
    typed: &Typed,
    words: &[String],
    store: &mut S,
    picker: &mut Box<dyn Picker>,
    passes: &mut Vec<Box<dyn Pass>>,
) -> Result<Product, Outcome>
    requires { HasText typed.now }
    ensures gathered { IsGathered S.Store (texts words.now) exec_plan
        (accepted_job (agents (picking (rule picker.old) (state picker.old)) (map (λ b. handed b) passes.old.items)) typed.now)
        (agents (picking (rule picker.new) (state picker.new)) (map (λ b. handed b) passes.new.items)) store.old store.new result }
    ensures rule { rule picker.new ≡ rule picker.old }
    ensures rules { map (λ b. (handed b).rule) passes.new.items ≡ map (λ b. (handed b).rule) passes.old.items }
    ensures left { IfErr result (λ outcome. IsLeft outcome picker.old picker.new) }
{
    let circuit = passed(alloc, typed, passes)?;
    gather_inputs(alloc, &circuit, words, store, picker)
}

/// All that `exec` gives, or why it ends before.
pub fn gather_exec<S: Store>(
    alloc: Global,
    words: &[String],
    store: &mut S,
    picker: &mut Box<dyn Picker>,
    passes: &mut Vec<Box<dyn Pass>>,
) -> Result<Product, Outcome>
    ensures gathered { IsGathered S.Store (texts words.now) exec_plan
        (exec_job (agents (picking (rule picker.old) (state picker.old)) (map (λ b. handed b) passes.old.items)))
        (agents (picking (rule picker.new) (state picker.new)) (map (λ b. handed b) passes.new.items)) store.old store.new result }
    ensures rule { rule picker.new ≡ rule picker.old }
    ensures rules { map (λ b. (handed b).rule) passes.new.items ≡ map (λ b. (handed b).rule) passes.old.items }
    ensures left { IfErr result (λ outcome. IsLeft outcome picker.old picker.new) }
{
    let typed = read_source(alloc, words, 1, store)?;
    gather_accepted(alloc, &typed, words, store, picker, passes)
}
