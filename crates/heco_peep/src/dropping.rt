ghost use Rattle.std.specs.Prelude.{◌≡◌, ◌+◌, ◌<◌, ◌^◌, false, [], length, slice_index_or, IfOk, OnOk};
ghost use Rattle.std.specs.List.{range_with_len};
ghost use Rattle.heco_rewrites.specs.Needed.{kept_where};
ghost use Rattle.heco_peep.specs.inside.Dropped.{kept_so_far, sieve};

use heco_circuit::Gate;
use heco_nums::{List, Memory};
use heco_rewrites::{input_names, over};
use std::alloc::Global;

/// Gates that stay, and the wire that each old wire is now.
#[derive(Debug, Drop)]
pub struct Staying {
    pub gates: List<Gate>,
    pub names: List<u32>,
}

fn start(alloc: Global, inputs: u32) -> Result<Staying, Memory>
    ensures { IfOk result (λ s. kept_so_far s ≡ record { gates = []; names = range_with_len 0 inputs }) }
{
    let names = input_names(alloc, inputs)?;
    let gates = List::new(alloc);
    Ok(Staying { gates, names })
}

/// One gate more behind so many inputs, where it stays.
fn put_where(s: &mut Staying, inputs: u32, gate: Gate, stays: bool) -> Result<(), Memory>
    requires { inputs + length s.old.gates < 2 ^ 32 }
    ensures { OnOk result (kept_so_far s.new ≡ kept_where inputs (kept_so_far s.old) gate stays) }
{
    if stays {
        let name = inputs + s.gates.len() as u32;
        let gate = over(s.names.as_slice(), gate);
        s.gates.push(gate)?;
        s.names.push(name)?;
    } else {
        s.names.push(0)?;
    }
    Ok(())
}

fn is_marked(marks: &[bool], wire: usize) -> bool
    ensures { result ≡ slice_index_or marks.now wire false }
{
    match marks.get(wire) {
        Some(mark) => *mark,
        None => false,
    }
}

/// The gates whose wires are marked, behind so many inputs.
pub fn keep(alloc: Global, inputs: u32, marks: &[bool], gates: &[Gate]) -> Result<Staying, Memory>
    requires { inputs + length gates.now < 2 ^ 32 }
    ensures { IfOk result (λ s. kept_so_far s ≡ sieve marks.now inputs gates.now) }
{
    let mut s = start(alloc, inputs)?;
    let mut rest = gates;
    while let [gate, after @ ..] = rest {
        let stays = is_marked(marks, s.names.len());
        put_where(&mut s, inputs, *gate, stays)?;
        rest = after;
    }
    Ok(s)
}
