//! A board together with the ciphertexts of its held wires and the buffers of its claimed gates.

ghost use Rattle.std.specs.Prelude.{◌≡◌, ◌+◌, ◌<◌, ◌∷◌, [], ℕ, List, All, Some, None, true, IsSome, IfOk, IfErr, OnOk, OnErr, length, max, slice_index, slice_set, if◌then◌else◌};
ghost use Rattle.std.specs.Option.{option_map};
ghost use Rattle.heco_circuit.specs.Plans.{wire_parts};
ghost use Rattle.heco_scheme.specs.Ciphertexts.{IsCiphertext};
ghost use Rattle.heco_schedules.specs.declared.event.Event.TheVariants.{Claim, Finish};
ghost use Rattle.heco_schedules.specs.Events.{Legal};
ghost use Rattle.heco_schedules.specs.Rising.{names};
ghost use Rattle.heco_schedules.specs.Refusals.{refusal};
ghost use Rattle.heco_schedules.specs.Schedules.{stepped};
ghost use Rattle.heco_schedules.specs.Standings.{wire_count, is_held};
ghost use Rattle.heco_schedules.specs.Stores.{entry, gathered, store_after};
ghost use Rattle.heco_sched.specs.Wirings.{operands_of, wiring};
ghost use Rattle.heco_run_laws.specs.Runs.{Ciphertext};
ghost use Rattle.heco_run.specs.Making.{HasVector, keys_of, made_of, made_parts, maker, Takes, weighers_of};
ghost use Rattle.heco_run.specs.Shapes.{IsShaped};
ghost use Rattle.heco_run.specs.Works.{IsWork, released};
ghost use Rattle.heco_run.specs.Refusals.{IsStepCause};

use crate::error::WorkErr;
use crate::make::{make_one, make_two};
use heco_bfv::{Ct, Gates};
use heco_circuit::{Circuit, Gate};
use heco_keys::Eval;
use heco_nums::{List, Memory, Preset};
use heco_poly::Poly;
use heco_sched::{Board, Event, operands};
use std::alloc::Global;

fn parts_at(store: &Vec<Option<Ct>>, wire: u32) -> u32
    requires { IsSome (entry store.now.items wire) }
    ensures { (c : Ciphertext) → entry store.now.items wire ≡ Some c → result ≡ length c }
{
    match &store[wire as usize] {
        Some(c) => c.parts(),
        None => 0,
    }
}

/// How many parts the gate makes.
fn parts_made(store: &Vec<Option<Ct>>, gate: Gate) -> u32
    requires { IsSome (gathered (entry store.now.items) (operands_of gate)) }
    ensures { (xs : List Ciphertext) → gathered (entry store.now.items) (operands_of gate) ≡ Some xs → result ≡ made_parts gate xs }
{
    match gate {
        Gate::Neg { a } => parts_at(store, a),
        Gate::Add { a, b } => parts_at(store, a).max(parts_at(store, b)),
        Gate::Sub { a, b } => parts_at(store, a).max(parts_at(store, b)),
        Gate::Mul { .. } => 3,
        Gate::Relin { .. } => 2,
        Gate::Scale { a, .. } => parts_at(store, a),
        Gate::Shift { a, .. } => parts_at(store, a),
        Gate::Turn { .. } => 2,
        Gate::Weigh { a, .. } => parts_at(store, a),
    }
}

/// A buffer for what the gate makes of the store's ciphertexts; Memory where there is none.
pub fn buffer(alloc: Global, p: &Preset, store: &Vec<Option<Ct>>, gate: Gate) -> Result<Ct, Memory>
    requires found { IsSome (gathered (entry store.now.items) (operands_of gate)) }
    requires store { (wire : ℕ) (c : Ciphertext) → entry store.now.items wire ≡ Some c → IsCiphertext p.now.n c }
    ensures { IfOk result (λ out. (xs : List Ciphertext) → gathered (entry store.now.items) (operands_of gate) ≡ Some xs → IsShaped p.now.n (made_parts gate xs) out) }
{
    let parts = parts_made(store, gate);
    Ct::zero(alloc, p, parts)
}

/// Makes the gate of the store's ciphertexts into the buffer, in a circuit whose plain vectors weigh by these polynomials.
pub fn make_gate(
    gates: &mut Gates,
    e: &Eval,
    weighers: &[Poly],
    gate: Gate,
    store: &Vec<Option<Ct>>,
    out: &mut Ct,
)
    requires preset { gates.old.preset ≡ e.now.preset }
    requires weighers { All (λ m. length m ≡ e.now.preset.n) weighers.now }
    requires vector { HasVector (length weighers.now) gate }
    requires found { IsSome (gathered (entry store.now.items) (operands_of gate)) }
    requires store { (wire : ℕ) (c : Ciphertext) → entry store.now.items wire ≡ Some c → IsCiphertext e.now.preset.n c }
    requires takes { (xs : List Ciphertext) → gathered (entry store.now.items) (operands_of gate) ≡ Some xs → Takes e.now.preset e.now.needs gate xs }
    requires parts { (xs : List Ciphertext) → gathered (entry store.now.items) (operands_of gate) ≡ Some xs → length out.old ≡ made_parts gate xs }
    requires out { IsCiphertext e.now.preset.n out.old }
    ensures preset { gates.new.preset ≡ gates.old.preset }
    ensures made { (vectors : List (List ℕ)) → weighers.now ≡ weighers_of e.now.preset vectors
        → Some out.new ≡ option_map (made_of e.now.preset (keys_of e.now) vectors gate) (gathered (entry store.now.items) (operands_of gate)) }
    ensures shape { IsShaped e.now.preset.n (length out.old) out.new }
{
    let (first, second) = operands(gate);
    let Some(a) = &store[first as usize] else {
        return;
    };
    match second {
        None => make_one(gates, e, weighers, gate, a, out),
        Some(wire) => {
            let Some(b) = &store[wire as usize] else {
                return;
            };
            make_two(gates, e, gate, a, b, out);
        }
    }
}

/// Drops the wire's ciphertext where the board no longer holds the wire.
fn let_go(board: &Board, store: &mut Vec<Option<Ct>>, wire: u32)
    requires wire { wire < wire_count board.now.circuit }
    requires store { wire < length store.old.items }
    ensures { store.new.items ≡ (if is_held board.now.circuit board.now.standing wire then store.old.items else slice_set store.old.items wire None) }
{
    if !board.held(wire) {
        store[wire as usize] = None;
    }
}

/// Drops what the board no longer holds of the gate's wire and its operands.
fn settle(board: &Board, store: &mut Vec<Option<Ct>>, own: u32, gate: Gate)
    requires count { length store.old.items ≡ wire_count board.now.circuit }
    requires own { own < wire_count board.now.circuit }
    requires operands { (wire : ℕ) → names (operands_of gate) wire ≡ true → wire < wire_count board.now.circuit }
    ensures { store.new.items ≡ released board.now.circuit board.now.standing store.old.items (own ∷ operands_of gate) }
{
    let (first, second) = operands(gate);
    let_go(board, store, own);
    let_go(board, store, first);
    if let Some(wire) = second {
        let_go(board, store, wire);
    }
}

/// The board, the gates' room, the polynomials that the circuit's plain vectors weigh by, the ciphertexts of the held wires
/// and the buffers of the claimed gates.
#[derive(Drop)]
pub struct Bench {
    pub board: Board,
    pub gates: Gates,
    pub weighers: List<Poly>,
    pub store: Vec<Option<Ct>>,
    pub room: Vec<Option<Ct>>,
}

impl Bench {
    /// Steps the board. A claim takes the gate's buffer; a finish makes the gate into it and lets go of what is no
    /// longer held.
    pub fn step(
        &mut self,
        alloc: Global,
        circuit: &Circuit,
        e: &Eval,
        event: Event,
    ) -> Result<(), WorkErr>
        requires { IsWork circuit.now e.now self.old.gates.preset self.old.weighers self.old.board self.old.store.items self.old.room.items }
        ensures answer { IfErr result (λ why. IsStepCause why event (refusal self.old.board.circuit self.old.board.standing event)) }
        ensures legal { OnOk result (Legal self.old.board.circuit self.old.board.standing event) }
        ensures board { OnOk result (self.new.board ≡ stepped self.old.board event) }
        ensures store { OnOk result (self.new.store.items
            ≡ store_after self.old.board.circuit (maker (made_of e.now.preset (keys_of e.now) circuit.now.vectors) circuit.now.gates) (record {
              standing = self.old.board.standing;
              store = self.old.store.items;
            }) event) }
        ensures err { OnErr result (self.new ≡ self.old) }
        ensures kept { IsWork circuit.now e.now self.new.gates.preset self.new.weighers self.new.board self.new.store.items self.new.room.items }
    {
        if let Some(reason) = self.board.refusal(event) {
            return Err(WorkErr::Step(reason));
        }
        match event {
            Event::Claim { worker, gate } => {
                let taken = *circuit.gates().get(gate as usize);
                let Ok(out) = buffer(alloc, e.preset(), &self.store, taken) else {
                    return Err(WorkErr::Memory);
                };
                self.claim(circuit, e, worker, gate, out);
            }
            Event::Finish { worker } => self.finish(circuit, e, worker),
        }
        Ok(())
    }

    fn claim(&mut self, circuit: &Circuit, e: &Eval, worker: u8, gate: u32, out: Ct)
        requires kept { IsWork circuit.now e.now self.old.gates.preset self.old.weighers self.old.board self.old.store.items self.old.room.items }
        requires legal { Legal self.old.board.circuit self.old.board.standing (Claim worker gate) }
        requires out { IsShaped e.now.preset.n (slice_index (wire_parts circuit.now) (length circuit.now.inputs + gate)) out }
        ensures board { self.new.board ≡ stepped self.old.board (Claim worker gate) }
        ensures store { self.new.store.items ≡ self.old.store.items }
        ensures kept { IsWork circuit.now e.now self.new.gates.preset self.new.weighers self.new.board self.new.store.items self.new.room.items }
    {
        let _ = self.board.step(Event::Claim { worker, gate });
        self.room[worker as usize] = Some(out);
    }

    fn finish(&mut self, circuit: &Circuit, e: &Eval, worker: u8)
        requires kept { IsWork circuit.now e.now self.old.gates.preset self.old.weighers self.old.board self.old.store.items self.old.room.items }
        requires legal { Legal self.old.board.circuit self.old.board.standing (Finish worker) }
        ensures board { self.new.board ≡ stepped self.old.board (Finish worker) }
        ensures store { self.new.store.items
            ≡ store_after self.old.board.circuit (maker (made_of e.now.preset (keys_of e.now) circuit.now.vectors) circuit.now.gates) (record {
              standing = self.old.board.standing;
              store = self.old.store.items;
            }) (Finish worker) }
        ensures kept { IsWork circuit.now e.now self.new.gates.preset self.new.weighers self.new.board self.new.store.items self.new.room.items }
    {
        let Some(number) = self.board.busy(worker) else {
            return;
        };
        let gate = *circuit.gates().get(number as usize);
        let own = circuit.inputs().len() as u32 + number;
        let Some(mut out) = self.room[worker as usize].take() else {
            return;
        };
        let weighers = self.weighers.as_slice();
        make_gate(&mut self.gates, e, weighers, gate, &self.store, &mut out);
        self.store[own as usize] = Some(out);
        let _ = self.board.step(Event::Finish { worker });
        settle(&self.board, &mut self.store, own, gate);
    }
}
