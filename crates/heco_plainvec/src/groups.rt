ghost use Rattle.std.specs.Prelude.{◌≡◌, ◌<◌, ◌==◌, ◌∷◌, ◌++◌, ℕ, not, false, if◌then◌else◌};
ghost use Rattle.std.specs.Prelude.{[], length, map, replicate, slice_index_or, IfOk, OnOk};
ghost use Rattle.std.specs.List.{cons_option};
ghost use Rattle.heco_plainvec.specs.Gathering.{is_read, wires, multiple_where, multiples};

use crate::multiple::Multiple;
use crate::scaled::scaled;
use heco_circuit::{Circuit, Gate};
use heco_nums::{List, Memory};
use std::alloc::Global;

/// So many empty lists.
pub fn empties<T: Drop>(alloc: Global, count: usize) -> Result<Vec<List<T>>, Memory>
    ensures { IfOk result (λ lists. lists.items ≡ replicate count []) }
{
    let mut lists = Vec::new(alloc);
    for _ in 0..count {
        lists.push(List::new(alloc))?;
    }
    Ok(lists)
}

/// Puts one more item behind those of a place, where there is such a place.
pub fn put_at<T: Drop>(lists: &mut Vec<List<T>>, at: u32, x: T) -> Result<(), Memory>
    ensures long { OnOk result (length lists.new.items ≡ length lists.old.items) }
    ensures each { OnOk result ((a : ℕ) → a < length lists.old.items
        → slice_index_or lists.new.items a []
        ≡ (if at == a then slice_index_or lists.old.items a [] ++ x ∷ [] else slice_index_or lists.old.items a [])) }
{
    if (at as usize) < lists.len() {
        lists[at as usize].push(x)?;
    }
    Ok(())
}

/// Puts the gate of a wire behind the multiples of the wire of which it is one.
fn put_multiple(
    groups: &mut Vec<List<Multiple>>,
    reads: &[bool],
    wire: u32,
    gate: Gate,
) -> Result<(), Memory>
    requires { wire < length reads.now }
    ensures long { OnOk result (length groups.new.items ≡ length groups.old.items) }
    ensures each { OnOk result ((a : ℕ) → a < length groups.old.items
        → slice_index_or groups.new.items a [] ≡ slice_index_or groups.old.items a []
        ++ cons_option (multiple_where (not (slice_index_or reads.now wire false)) a wire gate) []) }
{
    match scaled(reads, wire, gate) {
        Some(s) => put_at(groups, s.of, Multiple { wire, by: s.by }),
        None => Ok(()),
    }
}

/// The multiples of each wire that only output cells read.
pub fn multiples_of(
    alloc: Global,
    c: &Circuit,
    reads: &[bool],
) -> Result<List<List<Multiple>>, Memory>
    requires { reads.now ≡ map (is_read c.now) (wires c.now) }
    ensures { IfOk result (λ groups. groups ≡ map (multiples c.now) (wires c.now)) }
{
    let _valid = c.preset();
    let mut groups = empties(alloc, reads.len())?;
    let inputs = c.inputs().len() as u32;
    let gates = c.gates().as_slice();
    for i in 0..gates.len() {
        put_multiple(&mut groups, reads, inputs + i as u32, gates[i])?;
    }
    Ok(List::from_vec(groups))
}
