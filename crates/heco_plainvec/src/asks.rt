ghost use Rattle.std.specs.Prelude.{◌≡◌, ◌<◌, ◌++◌, ℕ, [], length, map, slice_index_or, IfOk, OnOk};
ghost use Rattle.std.specs.List.{flat_map};
ghost use Rattle.heco_plainvec.specs.Gathering.{is_read, wires, multiples, asked_by, asked};

use crate::groups::{empties, put_at};
use crate::multiple::Asked;
use crate::scaled::scaled_at;
use heco_circuit::{Cell, Circuit};
use heco_nums::{List, Memory};
use std::alloc::Global;

/// Puts what an output cell asks behind what is asked of the multiples of each wire.
fn put_asked(
    asks: &mut Vec<List<Asked>>,
    c: &Circuit,
    reads: &[bool],
    cell: Cell,
) -> Result<(), Memory>
    requires { reads.now ≡ map (is_read c.now) (wires c.now) }
    ensures long { OnOk result (length asks.new.items ≡ length asks.old.items) }
    ensures each { OnOk result ((a : ℕ) → a < length asks.old.items
        → slice_index_or asks.new.items a [] ≡ slice_index_or asks.old.items a [] ++ asked_by (multiples c.now a) cell) }
{
    match cell {
        Cell::Slot { wire, slot } => match scaled_at(c, reads, wire) {
            Some(s) => put_at(asks, s.of, Asked { slot, by: s.by }),
            None => Ok(()),
        },
        Cell::Number(_) => Ok(()),
    }
}

/// The same for all cells of an output.
fn put_all_asked(
    asks: &mut Vec<List<Asked>>,
    c: &Circuit,
    reads: &[bool],
    cells: &[Cell],
) -> Result<(), Memory>
    requires { reads.now ≡ map (is_read c.now) (wires c.now) }
    ensures long { OnOk result (length asks.new.items ≡ length asks.old.items) }
    ensures each { OnOk result ((a : ℕ) → a < length asks.old.items
        → slice_index_or asks.new.items a [] ≡ slice_index_or asks.old.items a [] ++ flat_map (asked_by (multiples c.now a)) cells.now) }
{
    let mut rest = cells;
    while let [cell, after @ ..] = rest {
        put_asked(asks, c, reads, *cell)?;
        rest = after;
    }
    Ok(())
}

/// What the output cells ask of the multiples of each wire.
pub fn asks_of(alloc: Global, c: &Circuit, reads: &[bool]) -> Result<List<List<Asked>>, Memory>
    requires { reads.now ≡ map (is_read c.now) (wires c.now) }
    ensures { IfOk result (λ asks. asks ≡ map (asked c.now) (wires c.now)) }
{
    let mut asks = empties(alloc, reads.len())?;
    let mut rest = c.outputs().as_slice();
    while let [output, after @ ..] = rest {
        put_all_asked(&mut asks, c, reads, output.cells.as_slice())?;
        rest = after;
    }
    Ok(List::from_vec(asks))
}
