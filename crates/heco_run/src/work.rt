ghost use Rattle.std.specs.Prelude.{◌≡◌, ◌++◌, ◌<◌, ◌≤◌, ◌^◌, true, false, None, Some, length, IfOk, IfErr, OnOk, OnErr, IfNone, IfSome, OnSome, MatchResult, MatchOption};
ghost use Rattle.heco_schedules.specs.Events.{Legal};
ghost use Rattle.heco_schedules.specs.Refusals.{refusal};
ghost use Rattle.heco_schedules.specs.Standings.{wire_count, is_held};
ghost use Rattle.heco_schedules.specs.Stores.{entry};
ghost use Rattle.heco_sched.specs.Wirings.{wiring};
ghost use Rattle.heco_run.specs.Refusals.{opening_refusal, IsCause, IsStepCause};
ghost use Rattle.heco_run.specs.Results.{entries, kept};
ghost use Rattle.heco_run.specs.Shapes.{AreTwoParts};
ghost use Rattle.heco_run.specs.Works.{begun, advanced};

use crate::bench::Bench;
use crate::error::{RunErr, WorkErr};
use crate::opening::{first_store, judge, no_buffers};
use crate::weighers::each_weigher;
use heco_bfv::{Ct, Gates};
use heco_circuit::Circuit;
use heco_keys::Eval;
use heco_nums::{List, Memory};
use heco_sched::{Board, Event};
use std::alloc::Global;
use std::marker::Model;

/// A circuit on its way under an evaluation key: where its gates stand, and the ciphertexts of its held wires.
#[derive(Drop)]
pub struct Work<'c> {
    circuit: &'c Circuit,
    eval: &'c Eval,
    alloc: Global,
    bench: Bench,
}

impl<'c> Model for Work<'c> {
    ghost use Rattle.heco_run.specs.Works.{Progress, IsWork};

    ghost Value = { Progress };

    ghost view = { λ w. record { circuit = w.circuit.now; eval = w.eval.now; world = record { standing = w.bench.board.standing; store = w.bench.store.items } } };

    ghost invariant = { λ w. IsWork w.circuit.now w.eval.now w.bench.gates.preset w.bench.weighers w.bench.board w.bench.store.items w.bench.room.items };
}

impl<'c> Work<'c> {
    /// A fresh board and the ciphertexts of the held inputs. The polynomial of each plain vector is made here, so that no
    /// finish takes memory.
    pub fn open(
        alloc: Global,
        c: &'c Circuit,
        e: &'c Eval,
        ins: Vec<Ct>,
        workers: u8,
    ) -> Result<Work<'c>, RunErr>
        requires some { 1 ≤ workers }
        requires few { workers ≤ 4 }
        requires one_preset { e.now.preset.id ≡ c.now.preset }
        requires inputs { AreTwoParts e.now.preset.n ins.items }
        requires count { length ins.items < 2 ^ 32 }
        ensures ok { IfOk result (λ w. w ≡ begun c.now e.now ins.items workers) }
        ensures refusal { MatchResult result (λ _. opening_refusal c.now e.now.needs (length ins.items) ≡ None) (λ why. IsCause why (opening_refusal c.now e.now.needs (length ins.items))) }
    {
        let _valid = c.preset();
        judge(alloc, c, e, ins.len() as u32)?;
        let board = Board::open(alloc, c, workers)?;
        let gates = Gates::open(alloc, e.preset())?;
        let weighers = each_weigher(alloc, e.preset(), c)?;
        let wires = c.inputs().len() + c.gates().len();
        let store = first_store(alloc, &board, ins, wires as u32)?;
        let room = no_buffers(alloc, workers)?;
        Ok(Work {
            circuit: c,
            eval: e,
            alloc,
            bench: Bench {
                board,
                gates,
                weighers,
                store,
                room,
            },
        })
    }

    /// Steps the board by the event. A claim takes the buffer of its gate, and a finish makes the gate into it and
    /// drops the wires that are no longer held.
    pub fn step(&mut self, event: Event) -> Result<(), WorkErr>
        ensures answer { IfErr result (λ why. IsStepCause why event (refusal (wiring self.old.circuit) self.old.world.standing event)) }
        ensures legal { OnOk result (Legal (wiring self.old.circuit) self.old.world.standing event) }
        ensures ok { OnOk result (self.new ≡ advanced self.old event) }
        ensures err { OnErr result (self.new ≡ self.old) }
    {
        self.bench.step(self.alloc, self.circuit, self.eval, event)
    }

    /// The circuit that it is on.
    pub fn circuit(&self) -> &Circuit
        ensures { result.now ≡ self.now.circuit }
    {
        let _valid = self.alloc;
        self.circuit
    }

    /// Where the gates and the workers stand.
    pub fn board(&self) -> &Board
        ensures { result.now ≡ record { circuit = wiring self.now.circuit; standing = self.now.world.standing } }
    {
        let _valid = self.alloc;
        &self.bench.board
    }

    /// The ciphertext of the wire: `None` exactly where the wire is not held.
    pub fn wire(&self, wire: u32) -> Option<&Ct>
        requires { wire < wire_count (wiring self.now.circuit) }
        ensures kept { MatchOption result (entry self.now.world.store wire ≡ None) (λ c. entry self.now.world.store wire ≡ Some c.now) }
        ensures held { OnSome result (is_held (wiring self.now.circuit) self.now.world.standing wire ≡ true) }
        ensures let_go { IfNone result (is_held (wiring self.now.circuit) self.now.world.standing wire ≡ false) }
    {
        match &self.bench.store[wire as usize] {
            Some(c) => Some(c),
            None => None,
        }
    }

    /// The ciphertexts that are kept, by rising wire.
    pub(crate) fn into_kept(self, alloc: Global) -> Result<List<Ct>, Memory>
        ensures { IfOk result (λ outs. outs ≡ kept self.entry.world.store) }
    {
        let Work { bench, .. } = self;
        let Bench { store, .. } = bench;
        keep(alloc, store)
    }
}

fn push_entry(outs: &mut List<Ct>, entry: Option<Option<Ct>>) -> Result<(), Memory>
    ensures { OnOk result (outs.new ≡ outs.old ++ entries entry) }
{
    match entry {
        None => {}
        Some(None) => {}
        Some(Some(c)) => outs.push(c)?,
    }
    Ok(())
}

fn keep(alloc: Global, store: Vec<Option<Ct>>) -> Result<List<Ct>, Memory>
    ensures { IfOk result (λ outs. outs ≡ kept store.items) }
{
    let mut outs = List::new(alloc);
    let count = store.len();
    let mut rest = store.into_iter();
    for _wire in 0..count {
        let entry = rest.next();
        push_entry(&mut outs, entry)?;
    }
    Ok(outs)
}
