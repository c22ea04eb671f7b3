ghost use Rattle.std.specs.Prelude.{◌≡◌, IfOk};
ghost use Rattle.heco_peep.specs.inside.Changing.{progress};
ghost use Rattle.heco_peep.specs.Looks.{looked};
ghost use Rattle.heco_peep.specs.inside.Ready.{IsReady};

use crate::changing::{Changed, look_one};
use crate::pass::Pass;
use crate::starting::started;
use heco_circuit::Circuit;
use heco_nums::{Memory, Preset};
use std::alloc::Global;

/// The looks of a pass at all gates of a circuit.
pub fn look_over(
    alloc: Global,
    p: &Preset,
    weights: &[u64],
    c: &Circuit,
    pass: &mut Box<dyn Pass>,
) -> Result<Changed, Memory>
    requires { IsReady p.now weights.now c.now }
    ensures looked { IfOk result (λ d. progress d (handed pass.new).state ≡ looked p.now c.now (handed pass.old).rule (handed pass.old).state) }
    ensures same { (handed pass.new).rule ≡ (handed pass.old).rule }
{
    let inputs = c.inputs().as_slice();
    let mut changed = started(alloc, p, inputs)?;
    let mut rest = c.gates().as_slice();
    while let [gate, after @ ..] = rest {
        look_one(p, inputs, weights, pass, &mut changed, *gate)?;
        rest = after;
    }
    Ok(changed)
}
