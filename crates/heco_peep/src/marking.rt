ghost use Rattle.std.specs.Prelude.{◌≡◌, ◌+◌, ◌<◌, ◌||◌, ◌==◌, ℕ, false, length, slice_index_or};
ghost use Rattle.std.specs.List.{list_any};
ghost use Rattle.heco_rewrites.specs.Needed.{reads, needed};
ghost use Rattle.heco_peep.specs.inside.Dropped.{is_marked};
ghost use Rattle.heco_peep.specs.Passed.{names_wire, shows};

use heco_circuit::{Cell, Gate, Output};

fn mark(marks: &mut [bool], wire: u32)
    ensures long { length marks.new ≡ length marks.old }
    ensures each { (a : ℕ) → a < length marks.old → slice_index_or marks.new a false ≡ (slice_index_or marks.old a false || wire == a) }
{
    if (wire as usize) < marks.len() {
        marks[wire as usize] = true;
    }
}

fn mark_operands(marks: &mut [bool], gate: Gate)
    ensures long { length marks.new ≡ length marks.old }
    ensures each { (a : ℕ) → a < length marks.old → slice_index_or marks.new a false ≡ (slice_index_or marks.old a false || reads gate a) }
{
    match gate {
        Gate::Add { a, b } | Gate::Sub { a, b } | Gate::Mul { a, b } => {
            mark(marks, a);
            mark(marks, b);
        }
        Gate::Neg { a } | Gate::Relin { a } => mark(marks, a),
        Gate::Scale { a, .. } | Gate::Shift { a, .. } => mark(marks, a),
        Gate::Turn { a, .. } | Gate::Weigh { a, .. } => mark(marks, a),
    }
}

/// Marks each wire that the marked ones need, where these gates make the wires behind so many inputs.
pub fn mark_needed(marks: &mut [bool], inputs: u32, gates: &[Gate])
    requires { length marks.old ≡ inputs + length gates.now }
    ensures long { length marks.new ≡ length marks.old }
    ensures each { (a : ℕ) → a < length marks.old → slice_index_or marks.new a false ≡ needed (is_marked marks.old) inputs gates.now a }
{
    let mut i = gates.len();
    while i > 0 {
        i -= 1;
        if marks[inputs as usize + i] {
            mark_operands(marks, gates[i]);
        }
    }
}

fn mark_cell(marks: &mut [bool], cell: Cell)
    ensures long { length marks.new ≡ length marks.old }
    ensures each { (a : ℕ) → a < length marks.old → slice_index_or marks.new a false ≡ (slice_index_or marks.old a false || names_wire a cell) }
{
    match cell {
        Cell::Slot { wire, .. } => mark(marks, wire),
        Cell::Number(_) => {}
    }
}

fn mark_cells(marks: &mut [bool], cells: &[Cell])
    ensures long { length marks.new ≡ length marks.old }
    ensures each { (a : ℕ) → a < length marks.old → slice_index_or marks.new a false ≡ (slice_index_or marks.old a false || list_any (names_wire a) cells.now) }
{
    let mut rest = cells;
    while let [cell, after @ ..] = rest {
        mark_cell(marks, *cell);
        rest = after;
    }
}

/// Marks the wires of which outputs have a slot.
pub fn mark_outputs(marks: &mut [bool], outputs: &[Output])
    ensures long { length marks.new ≡ length marks.old }
    ensures each { (a : ℕ) → a < length marks.old → slice_index_or marks.new a false ≡ (slice_index_or marks.old a false || shows outputs.now a) }
{
    let mut rest = outputs;
    while let [output, after @ ..] = rest {
        mark_cells(marks, output.cells.as_slice());
        rest = after;
    }
}
