ghost use Rattle.std.specs.Prelude.{◌≡◌, IfOk};
ghost use Rattle.heco_good.specs.Good.{Good};
ghost use Rattle.heco_key_files.specs.KeyFiles.{lists_of as eval_lists_of};
ghost use Rattle.heco_material.specs.KeyLists.{lists_of};
ghost use Rattle.heco_products.specs.KeyProducts.{circuit_key};
ghost use Rattle.heco_nums.specs.PresetRows.{preset_of};
ghost use Rattle.heco_syntax.specs.declared.tree.Source.{Source};
ghost use Rattle.heco_jobs.specs.Stages.{IsThingRead, seen};
ghost use Rattle.heco_jobs.specs.Words.{texts};
ghost use Rattle.heco_exec.specs.Chain.{AreKeysFor};
ghost use Rattle.heco_exec.specs.ExecTask.{IsKeyMaterialOf, IsNoKeyMaterialIn};

use heco_circuit::{Circuit, needs};
use heco_jobs::Outcome;
use heco_keys::{Eval, Secret, make};
use heco_material::KeyWords;
use heco_nums::Memory;
use heco_outside::Store;
use heco_reads::read_material;
use std::alloc::Global;

/// The key material for the circuit's needs that this word holds. For a good circuit these are the needs of the source's
/// written form.
pub fn read_key_words<S: Store>(
    alloc: Global,
    circuit: &Circuit,
    words: &[String],
    which: u8,
    store: &mut S,
) -> Result<KeyWords, Outcome>
    ensures kept { IfOk result (AreKeysFor circuit.now) }
    ensures read { (s : Source) → Good s circuit.now → IsThingRead S.Store (texts words.now) which (IsKeyMaterialOf s) (IsNoKeyMaterialIn which s) store.old store.new (seen lists_of result) }
{
    let needs = needs(alloc, circuit)?;
    let k = read_material(alloc, circuit.preset(), &needs, words, which, store)?;
    Ok(k)
}

/// The keys that are made of key material for the circuit.
pub fn made_keys(alloc: Global, circuit: &Circuit, k: &KeyWords) -> Result<(Secret, Eval), Memory>
    requires { AreKeysFor circuit.now k.now }
    ensures secret { IfOk result (λ x. (x.0.preset ≡ preset_of circuit.now.preset) × (x.0.places ≡ k.now.s)) }
    ensures preset { IfOk result (λ x. x.1.preset ≡ preset_of circuit.now.preset) }
    ensures evaluation { IfOk result (λ x. eval_lists_of x.1 ≡ circuit_key (preset_of circuit.now.preset) circuit.now (lists_of k.now)) }
{
    let _valid = circuit.preset();
    let keys = make(alloc, k)?;
    Ok(keys)
}
