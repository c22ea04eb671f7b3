ghost use Rattle.std.specs.Prelude.{◌≡◌, None, [], ◌+◌, ◌<◌, ◌≤◌, ◌^◌, length, IfOk, IfErr, OnOk, OnErr, MatchResult};
ghost use Rattle.heco_schedules.specs.declared.event.Event.{Event};
ghost use Rattle.heco_schedules.specs.Events.{legal_events};
ghost use Rattle.heco_schedules.specs.Picks.{Picked};
ghost use Rattle.heco_schedules.specs.Runs.{fresh};
ghost use Rattle.heco_sched.specs.Wirings.{wiring};
ghost use Rattle.heco_run_laws.specs.Results.{results_of};
ghost use Rattle.heco_run.specs.Refusals.{opening_refusal, IsCause};
ghost use Rattle.heco_run.specs.Making.{keys_of};
ghost use Rattle.heco_run.specs.Results.{kept, IsRun};
ghost use Rattle.heco_run.specs.Shapes.{AreTwoParts};
ghost use Rattle.heco_run.specs.inside.Spares.{HasSpare, advanced_by_all};

use crate::error::RunErr;
use crate::work::Work;
use heco_bfv::Ct;
use heco_circuit::Circuit;
use heco_keys::Eval;
use heco_nums::{List, Memory, Room};
use heco_sched::{Event, Picker};
use std::alloc::Global;

/// The ciphertexts of the different output wires by rising number, and the events.
#[derive(Debug, Drop)]
pub struct Ran {
    pub outs: List<Ct>,
    pub events: List<Event>,
}

fn ask(picker: &mut Box<dyn Picker>, count: u32) -> u32
    requires { 1 ≤ count }
    ensures answer { result ≡ (rule picker.old (state picker.old) count).0 }
    ensures moves { state picker.new ≡ (rule picker.old (state picker.old) count).1 }
    ensures same { rule picker.new ≡ rule picker.old }
    ensures within { result < count }
{
    picker.pick(count)
}

/// Before a claim, room for it and for the finishes of all claimed gates: of at most four.
fn take_room(events: &mut Room<Event>, event: Event) -> Result<(), Memory>
    ensures items { events.new.0 ≡ events.old.0 }
    ensures ok { OnOk result (HasSpare event events.old.1 events.new.1) }
{
    match event {
        Event::Claim { .. } => events.reserve(5)?,
        Event::Finish { .. } => {}
    }
    Ok(())
}

/// Steps the work by picked events until none is legal.
fn drive(
    work: &mut Work<'_>,
    picker: &mut Box<dyn Picker>,
    events: &mut Room<Event>,
) -> Result<(), Memory>
    requires start { work.old.world.standing ≡ fresh (wiring work.old.circuit) 4 }
    requires none { events.old.0 ≡ [] }
    ensures picked { OnOk result (Picked (rule picker.old) (wiring work.old.circuit) (state picker.old) work.old.world.standing events.new.0 (state picker.new) work.new.world.standing) }
    ensures ended { OnOk result (legal_events (wiring work.new.circuit) work.new.world.standing ≡ []) }
    ensures moved { OnOk result (work.new ≡ advanced_by_all work.old events.new.0) }
    ensures rule { rule picker.new ≡ rule picker.old }
{
    'picks: loop {
        let legal = work.board().legal();
        if legal == 0 {
            return Ok(());
        }
        let event = work.board().event(ask(picker, legal));
        take_room(events, event)?;
        if work.step(event).is_err() {
            return Err(Memory);
        }
        events.push_spare(event);
    }
}

/// Runs the circuit on the ciphertexts, gate by gate in the order that the picker gives.
pub fn run(
    alloc: Global,
    c: &Circuit,
    e: &Eval,
    ins: Vec<Ct>,
    picker: &mut Box<dyn Picker>,
) -> Result<Ran, RunErr>
    requires one_preset { e.now.preset.id ≡ c.now.preset }
    requires inputs { AreTwoParts e.now.preset.n ins.items }
    requires count { length ins.items < 2 ^ 32 }
    ensures refusal { MatchResult result (λ _. opening_refusal c.now e.now.needs (length ins.items) ≡ None) (λ why. IsCause why (opening_refusal c.now e.now.needs (length ins.items))) }
    ensures outs { IfOk result (λ ran. ran.outs ≡ results_of e.now.preset (keys_of e.now) c.now ins.items) }
    ensures shaped { IfOk result (λ ran. AreTwoParts e.now.preset.n ran.outs) }
    ensures events { IfOk result (λ ran. IsRun (rule picker.old) c.now (state picker.old) ran.events (state picker.new)) }
    ensures rule { rule picker.new ≡ rule picker.old }
{
    let _valid = c.preset();
    let mut work = Work::open(alloc, c, e, ins, 4)?;
    let mut events = Room::new(alloc);
    drive(&mut work, picker, &mut events)?;
    let outs = work.into_kept(alloc)?;
    Ok(Ran {
        outs,
        events: events.into_list(),
    })
}
