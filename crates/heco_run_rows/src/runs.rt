use crate::given::{Given, given_by, run_on};
use crate::works::{kept, opened};
use heco_bfv::Ct;
use heco_run::{Ran, Work};
use heco_sched::{Event, First, Last, Picker};
use heco_sched_rows::event_of;
use std::alloc::Global;
use std::test::Fail;

fn led_by_first(alloc: Global, g: &Given, count: u32) -> Result<Ran, Fail> {
    let mut picker: Box<dyn Picker> = Box::new(alloc, First)?;
    Ok(run_on(alloc, g, count, &mut picker)?)
}

fn led_by_last(alloc: Global, g: &Given, count: u32) -> Result<Ran, Fail> {
    let mut picker: Box<dyn Picker> = Box::new(alloc, Last)?;
    Ok(run_on(alloc, g, count, &mut picker)?)
}

// Whether both have the same words in their first two parts, and as many parts.
fn same(a: &Ct, b: &Ct) -> bool {
    a.parts() == b.parts()
        && a.part(0).as_slice() == b.part(0).as_slice()
        && a.part(1).as_slice() == b.part(1).as_slice()
}

fn takes_all(work: &mut Work<'_>, events: &[Event]) -> bool {
    for event in events {
        if work.step(*event).is_err() {
            return false;
        }
    }
    true
}

// Whether the work has nothing legal left, and keeps the one result at that wire.
fn keeps(work: &Work<'_>, outs: &[Ct], wire: u32) -> bool {
    match (outs, kept(work, wire)) {
        ([out], Some(c)) => work.board().legal() == 0 && same(out, c),
        _ => false,
    }
}

// Whether a work that takes the events of the run ends with its one result at that wire.
fn agrees(alloc: Global, g: &Given, ran: &Ran, count: u32, wire: u32) -> Result<bool, Fail> {
    let mut work = opened(alloc, g, count)?;
    Ok(takes_all(&mut work, ran.events.as_slice()) && keeps(&work, ran.outs.as_slice(), wire))
}

fn last_agrees_on(alloc: Global, g: &Given, count: u32, wire: u32) -> Result<bool, Fail> {
    let ran = led_by_last(alloc, g, count)?;
    agrees(alloc, g, &ran, count, wire)
}

fn last_agrees(alloc: Global, name: &str, count: u32, wire: u32) -> Result<bool, Fail> {
    let g = given_by(alloc, name, name)?;
    last_agrees_on(alloc, &g, count, wire)
}

#[test]
fn a_work_that_takes_the_events_of_a_run_keeps_its_result(rt: HostRuntime) -> Result<(), Fail> {
    assert!(rt; last_agrees(rt.alloc(), "dot", 2, 9)?);
    assert!(rt; last_agrees(rt.alloc(), "weighed product", 1, 6)?);
    Ok(())
}

const OVERLAPPING: &str = "claim 0 0
claim 1 1
finish 0
finish 1
claim 0 2
finish 0
claim 0 3
finish 0";

// Whether the events are those of the lines.
fn are_events(events: &[Event], text: &str) -> Result<bool, Fail> {
    let mut rest = events.iter();
    for line in text.lines() {
        if rest.next() != Some(&event_of(line)?) {
            return Ok(false);
        }
    }
    Ok(rest.next().is_none())
}

fn first_overlaps_on(alloc: Global, g: &Given) -> Result<bool, Fail> {
    let ran = led_by_first(alloc, g, 4)?;
    are_events(ran.events.as_slice(), OVERLAPPING)
}

fn first_overlaps(alloc: Global) -> Result<bool, Fail> {
    let g = given_by(alloc, "sum", "sum")?;
    first_overlaps_on(alloc, &g)
}

#[test]
fn two_products_overlap_where_the_first_event_is_picked(rt: HostRuntime) -> Result<(), Fail> {
    assert!(rt; first_overlaps(rt.alloc())?);
    Ok(())
}
