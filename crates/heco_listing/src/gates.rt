ghost use Rattle.std.specs.Prelude.{◌≡◌, ◌<◌, ◌^◌, ◌++◌, OnOk, decimal, codes, slice_index};
ghost use Rattle.heco_listing.specs.Listings.{gate_words, gate_line, gate_lines};

use crate::pieces::put_two;
use heco_circuit::Gate;
use heco_nums::{Bytes, Memory, put_number};

fn put_one(out: &mut Bytes, name: &[u8], a: u32) -> Result<(), Memory>
    ensures { OnOk result (out.new ≡ out.old ++ (name.now ++ decimal a)) }
{
    out.extend_from_slice(name)?;
    put_number(out, u128::from(a))
}

fn put_pair(out: &mut Bytes, name: &[u8], a: u32, b: u32) -> Result<(), Memory>
    ensures { OnOk result (out.new ≡ out.old ++ (name.now ++ (decimal a ++ codes " " ++ decimal b))) }
{
    out.extend_from_slice(name)?;
    put_two(out, a, b)
}

fn put_gate(out: &mut Bytes, gate: Gate) -> Result<(), Memory>
    ensures { OnOk result (out.new ≡ out.old ++ gate_words gate) }
{
    match gate {
        Gate::Neg { a } => put_one(out, b"Neg ", a),
        Gate::Add { a, b } => put_pair(out, b"Add ", a, b),
        Gate::Sub { a, b } => put_pair(out, b"Sub ", a, b),
        Gate::Mul { a, b } => put_pair(out, b"Mul ", a, b),
        Gate::Relin { a } => put_one(out, b"Relin ", a),
        Gate::Scale { c, a } => put_pair(out, b"Scale ", c, a),
        Gate::Shift { c, a } => put_pair(out, b"Shift ", c, a),
        Gate::Turn { r, a } => put_pair(out, b"Turn ", u32::from(r), a),
        Gate::Weigh { v, a } => put_pair(out, b"Weigh ", v, a),
    }
}

fn put_gate_line(out: &mut Bytes, wire: usize, gate: Gate, bound: u128) -> Result<(), Memory>
    ensures { OnOk result (out.new ≡ out.old ++ gate_line wire gate bound) }
{
    put_number(out, wire as u128)?;
    out.extend_from_slice(b" ")?;
    put_gate(out, gate)?;
    out.extend_from_slice(b" : ")?;
    put_number(out, bound)?;
    out.extend_from_slice(b"\n")
}

fn bound_at(bounds: &[u128], wire: usize) -> u128
    ensures { result ≡ slice_index bounds.now wire }
{
    match bounds.get(wire) {
        Some(bound) => *bound,
        None => 0,
    }
}

/// A line for each gate, the first of which gives the wire `first`.
pub fn put_gates(
    out: &mut Bytes,
    bounds: &[u128],
    first: usize,
    gates: &[Gate],
) -> Result<(), Memory>
    requires { first < 2 ^ 63 }
    ensures { OnOk result (out.new ≡ out.old ++ gate_lines bounds.now first gates.now) }
{
    let mut wire = first;
    let mut rest = gates;
    while let [gate, after @ ..] = rest {
        put_gate_line(out, wire, *gate, bound_at(bounds, wire))?;
        wire += 1;
        rest = after;
    }
    Ok(())
}
