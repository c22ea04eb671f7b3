ghost use Rattle.std.specs.Prelude.{◌≡◌, ◌≤◌, false, IfOk, IfErr, OnOk, length};
ghost use Rattle.heco_good.specs.Accepted.{IsAccepted};
ghost use Rattle.heco_good.specs.Compiled.{IsCircuitOf};
ghost use Rattle.heco_good.specs.Good.{Good};
ghost use Rattle.heco_compile.specs.Compiling.{IsRefused};
ghost use Rattle.heco_compile.specs.Refusals.{of_placing};
ghost use Rattle.heco_compile.specs.inside.Vectors.{AreVectors};
ghost use Rattle.heco_thrift.specs.Thrift.{weighs};

use bumpalo::Bump;
use heco_circuit::Circuit;
use heco_cse::drop_dead;
use heco_ir::{Homes, Ir, Vector, nodes_have_the_cost, nodes_have_the_gates_of_their_terms};
use heco_place::{PlaceErr, place};
use heco_plainvec::gather;
use heco_types::Typed;
use std::alloc::Global;

/// A good circuit of a typed source whose output elements have these vectors. The vectors that roots use stand in the
/// arena while it is made.
fn placed(
    alloc: Global,
    t: &Typed,
    vectors: &Ir<'_, Vector>,
    homes: &Homes,
    arena: &Bump,
) -> Result<Circuit, PlaceErr>
    requires { AreVectors t.now vectors.now.0 vectors.now.1 homes.now }
    ensures accepted { OnOk result (IsAccepted t.now) }
    ensures good { IfOk result (λ c. Good t.now c) }
    ensures unweighed { IfOk result (λ c. weighs c ≡ false) }
    ensures few { IfOk result (λ c. length c.gates ≤ 20447232) }
    ensures err { IfErr result (λ e. IsRefused t.now (of_placing e)) }
{
    let used = drop_dead(alloc, vectors, arena)?;
    let _valid = t.source();
    let _valid = used.len();
    let preset = t.preset();
    let inputs = t.inputs().as_slice();
    let outputs = t.outputs().as_slice();
    let circuit = place(alloc, &used, homes, preset, inputs, outputs)?;
    let _valid = circuit.preset();
    nodes_have_the_cost();
    nodes_have_the_gates_of_their_terms();
    Ok(circuit)
}

/// The circuit that a typed source is compiled to, whose output elements have these vectors: a good one, with products
/// by plain vectors in place of the multiples that only its outputs read.
pub fn circuit_of(
    alloc: Global,
    t: &Typed,
    vectors: &Ir<'_, Vector>,
    homes: &Homes,
    arena: &Bump,
) -> Result<Circuit, PlaceErr>
    requires { AreVectors t.now vectors.now.0 vectors.now.1 homes.now }
    ensures accepted { OnOk result (IsAccepted t.now) }
    ensures circuit { IfOk result (λ c. IsCircuitOf t.now c) }
    ensures few { IfOk result (λ c. length c.gates ≤ 20447232) }
    ensures err { IfErr result (λ e. IsRefused t.now (of_placing e)) }
{
    let placed = placed(alloc, t, vectors, homes, arena)?;
    Ok(gather(alloc, placed)?)
}
