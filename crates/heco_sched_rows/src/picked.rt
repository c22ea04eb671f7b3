use crate::events::{board_of, event_of};
use heco_sched::{Board, Event};
use std::alloc::Global;
use std::test::Fail;

// Four scalars, the sum of two products of them relinearised.
const SUM_OF_PRODUCTS: &str =
    "48434952010100040000000161000100000001620001000000016300010000000164000100000004040000000000000001040000000200000003020000000400000005050000000600010000000179000101000000070000";

// The first legal event of its board, each time that the one before is done.
const EVENTS: &str = "claim 0 0
claim 1 1
finish 0
finish 1
claim 0 2
finish 0
claim 0 3
finish 0";

fn first_legal(board: &Board) -> Option<Event> {
    let legal = board.legal();
    if legal == 0 {
        return None;
    }
    Some(board.event(0))
}

fn is_next(board: &mut Board, row: &str) -> Result<bool, Fail> {
    let event = event_of(row)?;
    Ok(first_legal(board) == Some(event) && board.step(event) == Ok(()))
}

// The first row whose event is not the next, where there is one.
fn first_other(board: &mut Board) -> Result<Option<&'static str>, Fail> {
    for row in EVENTS.lines() {
        if !is_next(board, row)? {
            return Ok(Some(row));
        }
    }
    Ok(None)
}

// The first row that is not so, and what is legal behind all rows.
fn found(alloc: Global) -> Result<(Option<&'static str>, Option<Event>), Fail> {
    let mut board = board_of(alloc, SUM_OF_PRODUCTS)?;
    let other = first_other(&mut board)?;
    Ok((other, first_legal(&board)))
}

#[test]
fn two_products_overlap_where_the_first_legal_event_is_picked(rt: HostRuntime) -> Result<(), Fail> {
    assert_eq!(rt; found(rt.alloc())?, (None, None));
    Ok(())
}
