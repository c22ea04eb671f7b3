ghost use Rattle.std.specs.Prelude.{◌≡◌, IfOk};
ghost use Rattle.std.specs.List.{count_by};
ghost use Rattle.heco_circuit.specs.Needs.{is_relin};
ghost use Rattle.heco_thrift.specs.Thrift.{is_product};
ghost use Rattle.heco_peep.specs.Passed.{is_kept};

use heco_circuit::{Circuit, Gate, is_relin, needs};
use heco_nums::Memory;
use std::alloc::Global;

fn count_relins(gates: &[Gate]) -> usize
    ensures { result ≡ count_by is_relin gates.now }
{
    let mut count = 0;
    for gate in gates {
        if is_relin(gate) {
            count += 1;
        }
    }
    count
}

fn is_product(gate: Gate) -> bool
    ensures { result ≡ is_product gate }
{
    match gate {
        Gate::Mul { .. } => true,
        _ => false,
    }
}

fn count_products(gates: &[Gate]) -> usize
    ensures { result ≡ count_by is_product gates.now }
{
    let mut count = 0;
    for gate in gates {
        if is_product(*gate) {
            count += 1;
        }
    }
    count
}

/// Whether a pass's circuit is kept, in place of that before the pass: it needs the same keys, and relinearises no more
/// often than it multiplies.
#[tactic(auto, unfolding(crate::specs::Passed::is_kept))]
pub fn is_kept(alloc: Global, c: &Circuit, d: &Circuit) -> Result<bool, Memory>
    ensures { IfOk result (λ b. b ≡ is_kept c.now d.now) }
{
    let old = needs(alloc, c)?;
    let new = needs(alloc, d)?;
    let gates = d.gates().as_slice();
    Ok(
        new.relin == old.relin
            && new.turns.as_slice() == old.turns.as_slice()
            && count_relins(gates) <= count_products(gates),
    )
}
