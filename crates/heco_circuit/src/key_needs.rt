ghost use Rattle.std.specs.Prelude.{◌≡◌, ◌≤◌, ◌<◌, ◌-◌, ◌∷◌, ◌++◌, ◌||◌, ℕ, false, [], IfOk, OnOk, filter, length, if◌then◌else◌};
ghost use Rattle.std.specs.List.{list_any, range_with_len, slice_index_or};
ghost use Rattle.heco_circuit.specs.Needs.{is_relin, turns_by, needs_relin, needed_turns};

use crate::circuit::Circuit;
use crate::gate::Gate;
use heco_nums::{KeyNeeds, List, Memory};
use std::alloc::Global;

/// Whether the gate relinearises.
pub fn is_relin(gate: &Gate) -> bool
    ensures { result ≡ is_relin gate.now }
{
    match gate {
        Gate::Relin { .. } => true,
        _ => false,
    }
}

fn has_relin(gates: &[Gate]) -> bool
    ensures { result ≡ list_any is_relin gates.now }
{
    let mut rest = gates;
    while let [gate, after @ ..] = rest {
        if is_relin(gate) {
            return true;
        }
        rest = after;
    }
    false
}

fn mark(seen: &mut [bool], gate: &Gate)
    requires { length seen.old ≡ 512 }
    ensures { (q : ℕ) → q < 512 → slice_index_or seen.new q false ≡ (slice_index_or seen.old q false || turns_by q gate.now) }
{
    if let Gate::Turn { r, .. } = gate {
        if (*r as usize) < seen.len() {
            seen[*r as usize] = true;
        }
    }
}

// At each amount, whether a gate turns by it.
fn marks(gates: &[Gate]) -> [bool; 512]
    ensures { (q : ℕ) → q < 512 → slice_index_or result q false ≡ list_any (turns_by q) gates.now }
{
    let mut seen = [false; 512];
    let mut rest = gates;
    while let [gate, after @ ..] = rest {
        mark(&mut seen, gate);
        rest = after;
    }
    seen
}

fn push_where(turns: &mut List<u16>, amount: u16, is_seen: bool) -> Result<(), Memory>
    ensures { OnOk result (turns.new ≡ (if is_seen then turns.old ++ amount ∷ [] else turns.old)) }
{
    if is_seen {
        turns.push(amount)?;
    }
    Ok(())
}

// The amounts below `slots` by which a gate turns, rising.
fn amounts(alloc: Global, gates: &[Gate], slots: u16) -> Result<List<u16>, Memory>
    requires low { 1 ≤ slots }
    requires high { slots ≤ 512 }
    ensures { IfOk result (λ turns. turns ≡ filter (λ r. list_any (turns_by r) gates.now) (range_with_len 1 (slots - 1))) }
{
    let seen = marks(gates);
    let mut turns = List::new(alloc);
    for amount in 1..slots {
        push_where(&mut turns, amount, seen[amount as usize])?;
    }
    Ok(turns)
}

/// The switch keys that the circuit needs: one to relinearise where a gate does, and one for each amount of a turn.
pub fn needs(alloc: Global, c: &Circuit) -> Result<KeyNeeds, Memory>
    ensures relin { IfOk result (λ k. k.relin ≡ needs_relin c.now) }
    ensures turns { IfOk result (λ k. k.turns ≡ needed_turns c.now) }
{
    let relin = has_relin(c.gates().as_slice());
    let turns = amounts(alloc, c.gates().as_slice(), c.preset().slots as u16)?;
    Ok(KeyNeeds { relin, turns })
}
