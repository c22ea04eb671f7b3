//! What gates make of messages. The operation is done on whole numbers, of which each is below q/2 in size: so it is found
//! modulo q, and taken modulo t from there.

ghost use Rattle.std.specs.Prelude.{◌≡◌, ◌<◌, ◌≤◌, IfOk, IsTrue, All, length, slice_index_or, []};
ghost use Rattle.std.specs.List.{list_all};
ghost use Rattle.std.specs.Int.RustNames.{unsigned_abs};
ghost use lib.IntN.{pos};
ghost use Rattle.heco_circuit.specs.Plans.{is_vector};
ghost use Rattle.heco_run_laws.specs.Messages.{message_by, message_at};
ghost use Rattle.heco_slots.specs.Messages as message;
ghost use Rattle.heco_slots.specs.Rows.{encoded_two};
ghost use Rattle.heco_measure.specs.inside.Plaintexts.{IsPlaintext, IsGateBehind};

use crate::making::{copied, of_words};
use crate::settling::settle;
use heco_circuit::Gate;
use heco_keys::exponent;
use heco_nums::{List, Memory, Preset};
use heco_poly::Poly;
use heco_slots::SlotTable;
use std::alloc::Global;

fn opposite(alloc: Global, p: &Preset, a: &Poly) -> Result<Poly, Memory>
    requires { IsPlaintext p.now a.now }
    ensures { IfOk result (λ m. m ≡ message.opposite p.now a.now) }
{
    let mut m = copied(alloc, p, a)?;
    m.neg_in();
    settle(p, &mut m);
    Ok(m)
}

fn sum(alloc: Global, p: &Preset, a: &Poly, b: &Poly) -> Result<Poly, Memory>
    requires a { IsPlaintext p.now a.now }
    requires b { IsPlaintext p.now b.now }
    ensures { IfOk result (λ m. m ≡ message.sum p.now a.now b.now) }
{
    let mut m = copied(alloc, p, a)?;
    m.add_in(b);
    settle(p, &mut m);
    Ok(m)
}

fn difference(alloc: Global, p: &Preset, a: &Poly, b: &Poly) -> Result<Poly, Memory>
    requires a { IsPlaintext p.now a.now }
    requires b { IsPlaintext p.now b.now }
    ensures { IfOk result (λ m. m ≡ message.difference p.now a.now b.now) }
{
    let mut m = copied(alloc, p, a)?;
    m.sub_in(b);
    settle(p, &mut m);
    Ok(m)
}

fn product(alloc: Global, p: &Preset, a: &Poly, b: &Poly) -> Result<Poly, Memory>
    requires a { IsPlaintext p.now a.now }
    requires b { IsPlaintext p.now b.now }
    ensures { IfOk result (λ m. m ≡ message.product p.now a.now b.now) }
{
    let mut m = Poly::zero(alloc, p)?;
    Poly::mul_into(a, b, &mut m);
    settle(p, &mut m);
    Ok(m)
}

/// The number as a signed one.
fn whole(c: u32) -> i64
    ensures value { result ≡ pos c }
    ensures size { unsigned_abs result ≡ c }
{
    i64::from(c)
}

fn multiple(alloc: Global, p: &Preset, c: u32, a: &Poly) -> Result<Poly, Memory>
    requires c { c < p.now.t }
    requires a { IsPlaintext p.now a.now }
    ensures { IfOk result (λ m. m ≡ message.multiple p.now c a.now) }
{
    let mut m = copied(alloc, p, a)?;
    m.scale_in(whole(c));
    settle(p, &mut m);
    Ok(m)
}

/// c more at coefficient 0.
fn raised(alloc: Global, p: &Preset, c: u32, a: &Poly) -> Result<Poly, Memory>
    requires c { c < p.now.t }
    requires a { IsPlaintext p.now a.now }
    ensures { IfOk result (λ m. m ≡ message.raised p.now c a.now) }
{
    let mut constant = Poly::zero(alloc, p)?;
    constant.set(0, u64::from(c));
    let mut m = copied(alloc, p, a)?;
    m.add_in(&constant);
    settle(p, &mut m);
    Ok(m)
}

fn turned(alloc: Global, p: &Preset, r: u16, a: &Poly) -> Result<Poly, Memory>
    requires r { r ≤ p.now.slots }
    requires a { IsPlaintext p.now a.now }
    ensures { IfOk result (λ m. m ≡ message.turned p.now r a.now) }
{
    let mut m = Poly::zero(alloc, p)?;
    Poly::turn_into(a, exponent(p, r), &mut m);
    settle(p, &mut m);
    Ok(m)
}

/// The plaintext with v in both rows. `room` takes its coefficients.
fn both_rows(alloc: Global, table: &SlotTable, v: &[u32], room: &mut [u32]) -> Result<Poly, Memory>
    requires v { IsTrue (is_vector table.now.preset.t table.now.preset.slots v.now) }
    requires room { length room.old ≡ table.now.preset.n }
    ensures { IfOk result (λ m. m ≡ encoded_two table.now.preset v.now v.now) }
{
    table.encode_two(v, v, room);
    of_words(alloc, &table.preset, room)
}

fn weighed(alloc: Global, table: &SlotTable, v: &[u32], a: &Poly) -> Result<Poly, Memory>
    requires v { IsTrue (is_vector table.now.preset.t table.now.preset.slots v.now) }
    requires a { IsPlaintext table.now.preset a.now }
    ensures { IfOk result (λ m. m ≡ message.weighed table.now.preset v.now a.now) }
{
    let p = &table.preset;
    let mut room = vec![in alloc; 0; p.n as usize]?;
    let weigher = both_rows(alloc, table, v, room.as_mut_slice())?;
    product(alloc, p, &weigher, a)
}

/// The plain vector of this number.
fn vector_at<'v>(p: &Preset, vectors: &'v [List<u32>], v: u32) -> &'v [u32]
    requires inside { v < length vectors.now }
    requires vectors { IsTrue (list_all (is_vector p.now.t p.now.slots) vectors.now) }
    ensures value { result.now ≡ slice_index_or vectors.now v [] }
    ensures vector { IsTrue (is_vector p.now.t p.now.slots result.now) }
{
    let _ = p;
    vectors[v as usize].as_slice()
}

/// The message of a wire.
fn at<'w>(p: &Preset, messages: &'w [Poly], wire: u32) -> &'w Poly
    requires inside { wire < length messages.now }
    requires plaintexts { All (IsPlaintext p.now) messages.now }
    ensures value { result.now ≡ message_at messages.now wire }
    ensures plaintext { IsPlaintext p.now result.now }
{
    let _ = p;
    &messages[wire as usize]
}

/// The message that the gate makes of those of the wires before it, in a circuit of these plain vectors; Memory where there
/// is none. A vector is encoded at each gate that weighs by it.
pub fn gate_message(
    alloc: Global,
    table: &SlotTable,
    vectors: &[List<u32>],
    gate: Gate,
    messages: &[Poly],
) -> Result<Poly, Memory>
    requires gate { IsGateBehind table.now.preset (length vectors.now) (length messages.now) gate }
    requires vectors { IsTrue (list_all (is_vector table.now.preset.t table.now.preset.slots) vectors.now) }
    requires plaintexts { All (IsPlaintext table.now.preset) messages.now }
    ensures { IfOk result (λ m. m ≡ message_by table.now.preset vectors.now messages.now gate) }
{
    let p = &table.preset;
    match gate {
        Gate::Neg { a } => opposite(alloc, p, at(p, messages, a)),
        Gate::Add { a, b } => sum(alloc, p, at(p, messages, a), at(p, messages, b)),
        Gate::Sub { a, b } => difference(alloc, p, at(p, messages, a), at(p, messages, b)),
        Gate::Mul { a, b } => product(alloc, p, at(p, messages, a), at(p, messages, b)),
        Gate::Relin { a } => copied(alloc, p, at(p, messages, a)),
        Gate::Scale { c, a } => multiple(alloc, p, c, at(p, messages, a)),
        Gate::Shift { c, a } => raised(alloc, p, c, at(p, messages, a)),
        Gate::Turn { r, a } => turned(alloc, p, r, at(p, messages, a)),
        Gate::Weigh { v, a } => weighed(alloc, table, vector_at(p, vectors, v), at(p, messages, a)),
    }
}
