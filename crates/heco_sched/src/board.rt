ghost use Rattle.std.specs.Prelude.{◌≡◌, ◌*◌, true, false, ◌+◌, ◌<◌, ◌≤◌, ◌^◌, ℕ, length, slice_get, Some, None, IfOk, OnOk, OnErr, MatchResult};
ghost use Rattle.heco_schedules.specs.Schedules.{Schedule, stepped};
ghost use Rattle.heco_schedules.specs.Standings.{Wiring, Standing, wire_count, is_held};
ghost use Rattle.heco_schedules.specs.Events.{Legal, legal_events, after, workers_where, ready_gates};
ghost use Rattle.heco_schedules.specs.Runs.{IsConsistent, fresh};
ghost use Rattle.heco_sched.specs.Wirings.{wiring};
ghost use Rattle.heco_schedules.specs.Refusals.{refusal};

use crate::opening::{count_uses, output_wires, ready_ones};
use crate::readers::Readers;
use crate::ready::wake;
use crate::uses::lower_uses;
use crate::wires::{missing_operand, wire_is_done};
use crate::workers::{count_busy, nth_worker};
use heco_circuit::{Circuit, Gate};
use heco_marks::Marks;
use heco_nums::Memory;
use heco_schedules::{Event, Stage, StepErr};
use std::alloc::Global;
use std::marker::Model;

#[derive(Drop)]
pub struct Board {
    inputs: u32,
    gates: Vec<Gate>,
    outputs: Vec<u32>,
    stages: Vec<Stage>,
    workers: Vec<Option<u32>>,
    ready: Marks,
    uses: Vec<u32>,
    readers: Readers,
}

impl Model for Board {
    ghost use Rattle.heco_schedules.specs.Schedules.{Schedule};
    ghost use Rattle.heco_sched.specs.Wirings.{wiring_of};
    ghost use Rattle.heco_sched.specs.Readers.{IsBoard};

    ghost Value = { Schedule };

    ghost view = { λ a. record { circuit = wiring_of a.inputs a.gates.items a.outputs.items; standing = record { stages = a.stages.items; workers = a.workers.items } } };

    ghost invariant = { λ a. IsBoard (wiring_of a.inputs a.gates.items a.outputs.items) (record {
      stages = a.stages.items;
      workers = a.workers.items;
    }) a.ready.numbers a.uses.items a.readers.last.items a.readers.firsts.items a.readers.seconds.items a.ready.places };
}

impl Board {
    /// A fresh board: the inputs are done, no gate is claimed or done, and each worker is idle.
    pub fn open(alloc: Global, c: &Circuit, workers: u8) -> Result<Board, Memory>
        requires some { 1 ≤ workers }
        requires few { workers ≤ 4 }
        ensures { IfOk result (λ b. b ≡ record { circuit = wiring c.now; standing = fresh (wiring c.now) workers }) }
    {
        let _valid = c.preset();
        let inputs = c.inputs().len();
        let gates = Vec::from_slice(alloc, c.gates().as_slice())?;
        let outputs = output_wires(alloc, c.outputs().as_slice())?;
        let stages = vec![in alloc; Stage::Open; gates.len()]?;
        let workers = vec![in alloc; None; usize::from(workers)]?;
        let ready = ready_ones(alloc, inputs as u32, &gates, &stages)?;
        let uses = count_uses(alloc, inputs + gates.len(), &gates, &outputs)?;
        let readers = Readers::of(alloc, inputs + gates.len(), &gates)?;
        Ok(Board {
            inputs: inputs as u32,
            gates,
            outputs,
            stages,
            workers,
            ready,
            uses,
            readers,
        })
    }

    /// How many workers are idle, gates ready and workers busy.
    fn counts(&self) -> (u32, u32, u32)
        ensures idle { result.0 ≡ length (workers_where false self.now.standing.workers) }
        ensures ready { result.1 ≡ length (ready_gates self.now.circuit self.now.standing) }
        ensures busy { result.2 ≡ length (workers_where true self.now.standing.workers) }
        ensures few { result.0 * result.1 + result.2 < 2 ^ 32 }
    {
        let busy = count_busy(&self.workers);
        let idle = self.workers.len() as u32 - busy;
        (idle, self.ready.count(), busy)
    }

    /// How many events are legal.
    pub fn legal(&self) -> u32
        ensures consistent { IsConsistent self.now.circuit self.now.standing }
        ensures count { result ≡ length (legal_events self.now.circuit self.now.standing) }
    {
        let _valid = &self.inputs;
        let (idle, ready, busy) = self.counts();
        idle * ready + busy
    }

    fn idle_worker(&self, k: u32) -> u8
        requires { k < length (workers_where false self.now.standing.workers) }
        ensures { slice_get (workers_where false self.now.standing.workers) k ≡ Some result }
    {
        nth_worker(&self.workers, false, k)
    }

    fn busy_worker(&self, k: u32) -> u8
        requires { k < length (workers_where true self.now.standing.workers) }
        ensures { slice_get (workers_where true self.now.standing.workers) k ≡ Some result }
    {
        nth_worker(&self.workers, true, k)
    }

    fn ready_gate(&self, k: u32) -> u32
        requires { k < length (ready_gates self.now.circuit self.now.standing) }
        ensures { slice_get (ready_gates self.now.circuit self.now.standing) k ≡ Some result }
    {
        self.ready.nth(k)
    }

    /// The legal event of that number.
    pub fn event(&self, i: u32) -> Event
        requires { i < length (legal_events self.now.circuit self.now.standing) }
        ensures { slice_get (legal_events self.now.circuit self.now.standing) i ≡ Some result }
    {
        let (idle, ready, _) = self.counts();
        let claims = idle * ready;
        if i < claims {
            let worker = self.idle_worker(i / ready);
            let gate = self.ready_gate(i % ready);
            return Event::Claim { worker, gate };
        }
        Event::Finish {
            worker: self.busy_worker(i - claims),
        }
    }

    /// The gate that the worker holds.
    pub fn busy(&self, worker: u8) -> Option<u32>
        requires { worker < length self.now.standing.workers }
        ensures { slice_get self.now.standing.workers worker ≡ Some result }
    {
        self.workers[worker as usize]
    }

    pub fn held(&self, wire: u32) -> bool
        requires { wire < wire_count self.now.circuit }
        ensures { result ≡ is_held self.now.circuit self.now.standing wire }
    {
        wire_is_done(self.inputs, &self.stages, wire) && self.uses[wire as usize] > 0
    }

    pub fn refusal(&self, event: Event) -> Option<StepErr>
        ensures { result ≡ refusal self.now.circuit self.now.standing event }
    {
        match event {
            Event::Claim { worker, gate } => self.claim_refusal(worker, gate),
            Event::Finish { worker } => self.finish_refusal(worker),
        }
    }

    fn claim_refusal(&self, worker: u8, gate: u32) -> Option<StepErr>
        ensures { result ≡ refusal self.now.circuit self.now.standing (Event.Claim worker gate) }
    {
        if worker as usize >= self.workers.len() {
            return Some(StepErr::NoWorker);
        }
        if gate as usize >= self.stages.len() {
            return Some(StepErr::NoGate);
        }
        let hold = self.workers[worker as usize];
        if let Some(held) = hold {
            return Some(StepErr::NotIdle { gate: held });
        }
        let stage = self.stages[gate as usize];
        match stage {
            Stage::Claimed(other) => Some(StepErr::Taken { worker: other }),
            Stage::Done => Some(StepErr::Done),
            Stage::Open => match missing_operand(self.inputs, &self.gates, &self.stages, gate) {
                Some(wire) => Some(StepErr::NotReady { wire }),
                None => None,
            },
        }
    }

    fn finish_refusal(&self, worker: u8) -> Option<StepErr>
        ensures { result ≡ refusal self.now.circuit self.now.standing (Event.Finish worker) }
    {
        if worker as usize >= self.workers.len() {
            return Some(StepErr::NoWorker);
        }
        let hold = self.workers[worker as usize];
        match hold {
            Some(_) => None,
            None => Some(StepErr::NotBusy),
        }
    }

    fn claim(&mut self, worker: u8, gate: u32)
        requires { Legal self.old.circuit self.old.standing (Event.Claim worker gate) }
        ensures { self.new ≡ stepped self.old (Event.Claim worker gate) }
    {
        self.stages[gate as usize] = Stage::Claimed(worker);
        self.workers[worker as usize] = Some(gate);
        self.ready.unmark(gate);
    }

    fn finish(&mut self, worker: u8)
        requires { Legal self.old.circuit self.old.standing (Event.Finish worker) }
        ensures { self.new ≡ stepped self.old (Event.Finish worker) }
    {
        let hold = self.workers[worker as usize];
        let Some(gate) = hold else {
            return;
        };
        self.stages[gate as usize] = Stage::Done;
        self.workers[worker as usize] = None;
        lower_uses(&mut self.uses, self.gates[gate as usize]);
        wake(
            self.inputs,
            &self.gates,
            &self.stages,
            &self.readers,
            self.inputs + gate,
            &mut self.ready,
        );
    }

    pub fn step(&mut self, event: Event) -> Result<(), StepErr>
        ensures answer { MatchResult result (λ _. refusal self.old.circuit self.old.standing event ≡ None) (λ e. refusal self.old.circuit self.old.standing event ≡ Some e) }
        ensures ok { OnOk result (self.new ≡ stepped self.old event) }
        ensures err { OnErr result (self.new ≡ self.old) }
    {
        if let Some(reason) = self.refusal(event) {
            return Err(reason);
        }
        match event {
            Event::Claim { worker, gate } => self.claim(worker, gate),
            Event::Finish { worker } => self.finish(worker),
        }
        Ok(())
    }
}
