//! A circuit with keys, and ciphertexts of constants as its inputs: a run is defined on any ciphertexts.

ghost use Rattle.std.specs.Prelude.{◌≡◌, ◌<◌, IfOk, length};
ghost use Rattle.heco_material.specs.KeyLists.{key_count, lists_of, IsKeyMaterial};
ghost use Rattle.heco_keys.specs.Amounts.{AreAmounts};
ghost use Rattle.heco_run.specs.Shapes.{AreTwoParts, IsShaped};

use crate::circuits::file_named;
use heco_bfv::Ct;
use heco_circuit::{Circuit, needs};
use heco_keys::{Eval, make};
use heco_material::{KeyWords, draw_keys};
use heco_nums::{Memory, Preset};
use heco_poly::Poly;
use heco_run::{Ran, RunErr, run};
use heco_sched::Picker;
use heco_sched_rows::circuit_of;
use std::alloc::Global;
use std::test::Fail;

/// A circuit and an evaluation key of its preset.
#[derive(Drop)]
pub struct Given {
    pub circuit: Circuit,
    pub eval: Eval,
    ghost one_preset: { eval.preset.id ≡ circuit.preset },
}

fn made(alloc: Global, circuit: Circuit, k: &KeyWords) -> Result<Given, Memory>
    requires preset { k.now.preset.id ≡ circuit.preset }
    requires material { let p = k.now.preset in IsKeyMaterial p.n p.h p.b (key_count k.now.needs) (lists_of k.now) }
    requires amounts { AreAmounts k.now.preset.slots k.now.needs.turns }
{
    let (_, eval) = make(alloc, k)?;
    Ok(Given { circuit, eval })
}

/// The circuit, with keys for what another one of its preset needs.
fn keyed(alloc: Global, circuit: Circuit, other: &Circuit) -> Result<Given, Memory>
    requires { other.now.preset ≡ circuit.preset }
{
    let needed = needs(alloc, other)?;
    let k = draw_keys(alloc, other.preset(), &needed, 1)?;
    made(alloc, circuit, &k)
}

/// The circuit of that name, with keys for what another one needs.
pub fn given_by(alloc: Global, name: &str, keys: &str) -> Result<Given, Fail> {
    let circuit = circuit_of(alloc, file_named(name))?;
    let other = circuit_of(alloc, file_named(keys))?;
    if other.preset().id != circuit.preset().id {
        return Err("another preset".into());
    }
    Ok(keyed(alloc, circuit, &other)?)
}

fn poly(alloc: Global, p: &Preset, c: u64) -> Result<Poly, Memory>
    requires { c < 288230376151711744 }
    ensures { IfOk result (λ a. length a ≡ p.now.n) }
{
    let mut out = Poly::zero(alloc, p)?;
    if out.len() > 0 {
        out.set(0, c);
    }
    Ok(out)
}

/// A ciphertext of two constants.
fn constants(alloc: Global, p: &Preset, x: u32) -> Result<Ct, Memory>
    ensures { IfOk result (λ c. IsShaped p.now.n 2 c) }
{
    let first = poly(alloc, p, u64::from(x) * 67108861)?;
    let second = poly(alloc, p, u64::from(x) * 67108859)?;
    Ok(Ct::of(first, second))
}

/// So many inputs.
pub fn inputs(alloc: Global, g: &Given, count: u32) -> Result<Vec<Ct>, Memory>
    ensures shaped { IfOk result (λ ins. AreTwoParts g.now.eval.preset.n ins.items) }
    ensures count { IfOk result (λ ins. length ins.items ≡ count) }
{
    let p = g.eval.preset();
    let mut ins = Vec::new(alloc);
    for x in 0..count {
        ins.push(constants(alloc, p, x + 1)?)?;
    }
    Ok(ins)
}

/// The run on so many inputs.
pub fn run_on(
    alloc: Global,
    g: &Given,
    count: u32,
    picker: &mut Box<dyn Picker>,
) -> Result<Ran, RunErr> {
    let ins = inputs(alloc, g, count)?;
    run(alloc, &g.circuit, &g.eval, ins, picker)
}
