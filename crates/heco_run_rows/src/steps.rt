use crate::given::{Given, given_by};
use crate::works::{answer, opened};
use heco_run::Work;
use std::alloc::Global;
use std::test::Fail;

// What a work of four workers on the dot product of eight is told, and what it says.
const STEPS: &str = "legal|4
claim 0 0|done
claim 1 0|Step(Taken { worker: 0 })
claim 0 1|Step(NotIdle { gate: 0 })
claim 1 1|Step(NotReady { wire: 2 })
finish 1|Step(NotBusy)
claim 4 0|Step(NoWorker)
claim 0 8|Step(NoGate)
parts 0|2
parts 1|2
parts 2|none
finish 0|done
claim 0 0|Step(Done)
parts 0|none
parts 1|none
parts 2|3";

fn says(alloc: Global, work: &mut Work<'_>, row: &str) -> Result<bool, Fail> {
    let (line, wanted) = row.split_once('|').ok_or("no answer")?;
    Ok(answer(alloc, work, line)?.as_str() == wanted)
}

fn all_hold(alloc: Global, work: &mut Work<'_>) -> Result<bool, Fail> {
    for row in STEPS.lines() {
        if !says(alloc, work, row)? {
            return Ok(false);
        }
    }
    Ok(true)
}

fn holds_of(alloc: Global, g: &Given) -> Result<bool, Fail> {
    let mut work = opened(alloc, g, 2)?;
    all_hold(alloc, &mut work)
}

fn holds(alloc: Global) -> Result<bool, Fail> {
    let g = given_by(alloc, "dot", "dot")?;
    holds_of(alloc, &g)
}

#[test]
fn a_work_answers_as_its_board(rt: HostRuntime) -> Result<(), Fail> {
    assert!(rt; holds(rt.alloc())?);
    Ok(())
}
