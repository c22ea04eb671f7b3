ghost use Rattle.std.specs.Prelude.{◌≡◌, ◌∷◌, [], IfOk, length, take, drop};
ghost use Rattle.heco_exec.specs.Chain.{AreKeysFor};
ghost use Rattle.heco_material.specs.KeyLists.{IsEncMaterial, lists_of};
ghost use Rattle.heco_nums.specs.PresetRows.{preset_of};
ghost use Rattle.heco_sample.specs.Drawn.{drawn_rows, drawn_words};
ghost use Rattle.heco_tasks.specs.DrawnFiles.{drawn_material};

use heco_circuit::{Circuit, needs};
use heco_draw::draw_values;
use heco_material::{EncWords, KeyWords, draw_enc, draw_keys};
use heco_nums::{Inputs, List, Memory, Preset};
use heco_tasks::input_count;
use std::alloc::Global;

fn rows(alloc: Global, values: &[u32]) -> Result<List<List<u32>>, Memory>
    requires { length values.now ≡ 1024 }
    ensures { IfOk result (λ rows. rows ≡ take 512 values.now ∷ drop 512 values.now ∷ []) }
{
    let (first, second) = values.split_at(512);
    let mut rows = List::new(alloc);
    rows.push(List::from_slice(alloc, first)?)?;
    rows.push(List::from_slice(alloc, second)?)?;
    Ok(rows)
}

/// The values of both inputs, as the seed draws them.
pub fn values(alloc: Global, p: &Preset, seed: u64) -> Result<Inputs, Memory>
    requires { p.now.t ≡ 65537 }
    ensures { IfOk result (λ v. v.rows ≡ drawn_rows seed) }
{
    let values = draw_values(alloc, p, seed, 1024)?;
    let rows = rows(alloc, values.as_slice())?;
    Ok(Inputs { rows })
}

/// The key material of the circuit, as the seed draws it.
pub fn keys(alloc: Global, circuit: &Circuit, seed: u64) -> Result<KeyWords, Memory>
    ensures kept { IfOk result (AreKeysFor circuit.now) }
    ensures words { IfOk result (λ k. lists_of k ≡ drawn_material circuit.now seed) }
{
    let needs = needs(alloc, circuit)?;
    let k = draw_keys(alloc, circuit.preset(), &needs, seed)?;
    Ok(k)
}

/// The encryption material of the circuit's inputs, as the seed draws it.
pub fn words(alloc: Global, circuit: &Circuit, seed: u64) -> Result<EncWords, Memory>
    ensures kept { IfOk result (λ w. w.preset ≡ preset_of circuit.now.preset) }
    ensures words { IfOk result (λ w. w.rows ≡ drawn_words circuit.now seed) }
    ensures within { IfOk result (λ w. let p = preset_of circuit.now.preset in IsEncMaterial p.n p.h p.b (length circuit.now.inputs) w.rows) }
{
    let words = draw_enc(alloc, circuit.preset(), input_count(circuit), seed)?;
    Ok(words)
}
