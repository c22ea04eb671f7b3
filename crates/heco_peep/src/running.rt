ghost use Rattle.std.specs.Prelude.{◌≡◌, map, IfOk, OnOk};
ghost use Rattle.heco_peep.specs.NoWorse.{HasFewBytes};
ghost use Rattle.heco_peep.specs.Passed.{passed, passed_on, IsPassed};
ghost use Rattle.heco_peep.specs.inside.Ready.{IsReady};

use crate::once::pass_over;
use crate::pass::Pass;
use heco_circuit::{Circuit, weights_of};
use heco_nums::{Memory, Preset};
use std::alloc::Global;

/// The circuit that comes of all passes in order, where the vectors have these weights.
fn pass_by_each(
    alloc: Global,
    p: &Preset,
    weights: &[u64],
    c: Circuit,
    passes: &mut Vec<Box<dyn Pass>>,
) -> Result<Circuit, Memory>
    requires { IsReady p.now weights.now c }
    ensures passed { IfOk result (λ d. d ≡ passed p.now c (map (λ b. handed b) passes.old.items)) }
    ensures left { OnOk result (map (λ b. handed b) passes.new.items ≡ passed_on p.now c (map (λ b. handed b) passes.old.items)) }
    ensures rules { map (λ b. (handed b).rule) passes.new.items ≡ map (λ b. (handed b).rule) passes.old.items }
{
    let mut c = c;
    for i in 0..passes.len() {
        c = pass_over(alloc, p, weights, c, &mut passes[i])?;
    }
    Ok(c)
}

/// The circuit that comes of all passes in order, each over the circuit that the one before it left.
pub fn run_passes(
    alloc: Global,
    c: Circuit,
    passes: &mut Vec<Box<dyn Pass>>,
) -> Result<Circuit, Memory>
    requires { HasFewBytes c }
    ensures passed { IfOk result (λ d. IsPassed c (map (λ b. handed b) passes.old.items) d (map (λ b. handed b) passes.new.items)) }
    ensures rules { map (λ b. (handed b).rule) passes.new.items ≡ map (λ b. (handed b).rule) passes.old.items }
{
    let p = *c.preset();
    let weights = weights_of(alloc, &p, c.vectors().as_slice())?;
    pass_by_each(alloc, &p, weights.as_slice(), c, passes)
}
