//! What a gate makes of the ciphertexts of its operands, into a buffer that was taken before.

ghost use Rattle.std.specs.Prelude.{◌≡◌, ◌∷◌, [], ℕ, List, Some, true, length, IfOk, IsSome};
ghost use Rattle.std.specs.List.{All};
ghost use Rattle.std.specs.Option.{option_map};
ghost use Rattle.heco_circuit.specs.declared.gate.Gate.{Gate};
ghost use Rattle.heco_scheme.specs.Ciphertexts.{IsCiphertext};
ghost use Rattle.heco_schedules.specs.Stores.{entry, gathered};
ghost use Rattle.heco_sched.specs.Wirings.{operands_of};
ghost use Rattle.heco_run_laws.specs.Runs.{Ciphertext};
ghost use Rattle.heco_run.specs.Making.{HasVector, keys_of, made_of, made_parts, Takes, weighers_of};
ghost use Rattle.heco_run.specs.Shapes.{IsShaped};

use heco_bfv::{Ct, Gates};
use heco_circuit::Gate;
use heco_keys::Eval;
use heco_nums::{Memory, Preset};
use heco_poly::Poly;
use std::alloc::Global;

/// A gate with one operand, in a circuit whose plain vectors weigh by these polynomials.
pub fn make_one(gates: &mut Gates, e: &Eval, weighers: &[Poly], gate: Gate, a: &Ct, out: &mut Ct)
    requires one { length (operands_of gate) ≡ 1 }
    requires preset { gates.old.preset ≡ e.now.preset }
    requires weighers { All (λ m. length m ≡ e.now.preset.n) weighers.now }
    requires vector { HasVector (length weighers.now) gate }
    requires a { IsCiphertext e.now.preset.n a.now }
    requires out { IsCiphertext e.now.preset.n out.old }
    requires takes { Takes e.now.preset e.now.needs gate (a.now ∷ []) }
    requires parts { length out.old ≡ made_parts gate (a.now ∷ []) }
    ensures preset { gates.new.preset ≡ gates.old.preset }
    ensures made { (vectors : List (List ℕ)) → weighers.now ≡ weighers_of e.now.preset vectors → out.new ≡ made_of e.now.preset (keys_of e.now) vectors gate (a.now ∷ []) }
    ensures shape { IsShaped e.now.preset.n (length out.old) out.new }
{
    match gate {
        Gate::Neg { .. } => gates.neg(a, out),
        Gate::Relin { .. } => {
            if let Some(key) = e.relin_key() {
                gates.relin(key, a, out);
            }
        }
        Gate::Scale { c, .. } => gates.scale(c, a, out),
        Gate::Shift { c, .. } => gates.shift(c, a, out),
        Gate::Turn { r, .. } => {
            if let Some(key) = e.turn_key(r) {
                gates.turn(r, key, a, out);
            }
        }
        Gate::Weigh { v, .. } => gates.weigh(&weighers[v as usize], a, out),
        Gate::Add { .. } => {}
        Gate::Sub { .. } => {}
        Gate::Mul { .. } => {}
    }
}

/// A gate with two operands.
pub fn make_two(gates: &mut Gates, e: &Eval, gate: Gate, a: &Ct, b: &Ct, out: &mut Ct)
    requires two { length (operands_of gate) ≡ 2 }
    requires preset { gates.old.preset ≡ e.now.preset }
    requires a { IsCiphertext e.now.preset.n a.now }
    requires b { IsCiphertext e.now.preset.n b.now }
    requires out { IsCiphertext e.now.preset.n out.old }
    requires takes { Takes e.now.preset e.now.needs gate (a.now ∷ b.now ∷ []) }
    requires parts { length out.old ≡ made_parts gate (a.now ∷ b.now ∷ []) }
    ensures preset { gates.new.preset ≡ gates.old.preset }
    ensures made { (vectors : List (List ℕ)) → out.new ≡ made_of e.now.preset (keys_of e.now) vectors gate (a.now ∷ b.now ∷ []) }
    ensures shape { IsShaped e.now.preset.n (length out.old) out.new }
{
    match gate {
        Gate::Add { .. } => gates.add(a, b, out),
        Gate::Sub { .. } => gates.sub(a, b, out),
        Gate::Mul { .. } => gates.mul(a, b, out),
        Gate::Neg { .. } => {}
        Gate::Relin { .. } => {}
        Gate::Scale { .. } => {}
        Gate::Shift { .. } => {}
        Gate::Turn { .. } => {}
        Gate::Weigh { .. } => {}
    }
}
