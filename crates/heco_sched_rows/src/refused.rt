use crate::events::{board_of, circuit_of, event_of};
use heco_circuit_rows::DOT_OF_EIGHT;
use heco_sched::{Board, Event};
use std::alloc::Global;
use std::test::Fail;

// Events on its board in order, with the answer to each.
const EVENTS: &str = "claim 0 0|done
claim 1 0|Taken { worker: 0 }
claim 0 1|NotIdle { gate: 0 }
claim 1 1|NotReady { wire: 2 }
finish 1|NotBusy
claim 4 0|NoWorker
claim 0 8|NoGate
finish 0|done
claim 0 0|Done";

// One scalar less its product with another, relinearised.
const LESS_PRODUCT: &str =
    "484349520201000200000001780001000000017a000100000003040000000000000001030000000000000002050000000300010000000179000101000000040000";

// The difference waits for its second operand.
const EVENTS_OF_A_DIFFERENCE: &str = "claim 0 1|NotReady { wire: 2 }
claim 0 0|done
claim 1 1|NotReady { wire: 2 }
finish 0|done
claim 1 2|NotReady { wire: 3 }
claim 1 1|done
finish 1|done
claim 0 2|done
finish 0|done";

fn answer(alloc: Global, board: &mut Board, event: Event) -> Result<String, Fail> {
    match board.step(event) {
        Ok(()) => Ok(String::from_str(alloc, "done")?),
        Err(e) => Ok(format!(in alloc; "{e:?}")?),
    }
}

fn holds(alloc: Global, board: &mut Board, row: &str) -> Result<bool, Fail> {
    let (event, wanted) = row.split_once('|').ok_or("no answer")?;
    Ok(answer(alloc, board, event_of(event)?)?.as_str() == wanted)
}

// The first row that is answered otherwise, where there is one.
fn first_other(alloc: Global, board: &mut Board) -> Result<Option<&'static str>, Fail> {
    for row in EVENTS.lines() {
        if !holds(alloc, board, row)? {
            return Ok(Some(row));
        }
    }
    Ok(None)
}

// How many events are legal on the new board, and the first row that is answered otherwise.
fn found(alloc: Global) -> Result<(u32, Option<&'static str>), Fail> {
    let mut board = board_of(alloc, DOT_OF_EIGHT)?;
    let legal = board.legal();
    Ok((legal, first_other(alloc, &mut board)?))
}

#[test]
fn a_board_refuses_an_event_for_its_first_reason(rt: HostRuntime) -> Result<(), Fail> {
    assert_eq!(rt; found(rt.alloc())?, (4, None));
    Ok(())
}

#[test]
fn a_difference_waits_for_both_operands(rt: HostRuntime) -> Result<(), Fail> {
    let circuit = circuit_of(rt.alloc(), LESS_PRODUCT)?;
    let mut board = Board::open(rt.alloc(), &circuit, 4)?;
    for row in EVENTS_OF_A_DIFFERENCE.lines() {
        assert!(rt; holds(rt.alloc(), &mut board, row)?, "{row}");
    }
    Ok(())
}
