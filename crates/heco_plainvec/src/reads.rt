ghost use Rattle.std.specs.Prelude.{◌≡◌, ◌||◌, ◌<◌, ◌==◌, ℕ, false, length, map, slice_index_or, IfOk};
ghost use Rattle.heco_rewrites.specs.Needed.{reads};
ghost use Rattle.heco_plainvec.specs.Gathering.{is_read, wires};

use heco_circuit::{Circuit, Gate};
use heco_nums::{List, Memory};
use std::alloc::Global;

fn mark(marks: &mut [bool], wire: u32)
    ensures { (w : ℕ) → w < length marks.old → slice_index_or marks.new w false ≡ (slice_index_or marks.old w false || wire == w) }
{
    if (wire as usize) < marks.len() {
        marks[wire as usize] = true;
    }
}

/// Marks what the gate reads.
fn mark_read(marks: &mut [bool], gate: Gate)
    ensures { (w : ℕ) → w < length marks.old → slice_index_or marks.new w false ≡ (slice_index_or marks.old w false || reads gate w) }
{
    match gate {
        Gate::Add { a, b } | Gate::Sub { a, b } | Gate::Mul { a, b } => {
            mark(marks, a);
            mark(marks, b);
        }
        Gate::Neg { a } | Gate::Relin { a } | Gate::Scale { c: _, a } | Gate::Shift { c: _, a } => {
            mark(marks, a)
        }
        Gate::Turn { r: _, a } | Gate::Weigh { v: _, a } => mark(marks, a),
    }
}

/// Whether a gate reads it, of each of so many wires.
pub fn reads_of(alloc: Global, c: &Circuit, count: usize) -> Result<List<bool>, Memory>
    requires { count ≡ length (wires c.now) }
    ensures { IfOk result (λ reads. reads ≡ map (is_read c.now) (wires c.now)) }
{
    let mut marks = vec![in alloc; false; count]?;
    let mut rest = c.gates().as_slice();
    while let [gate, after @ ..] = rest {
        mark_read(marks.as_mut_slice(), *gate);
        rest = after;
    }
    Ok(List::from_vec(marks))
}
