use crate::given::{Given, given_by};
use crate::works::opened;
use heco_run::RunErr;
use std::alloc::Global;
use std::test::Fail;

// The circuit whose keys there are, the count of ciphertexts, and why no work on the dot product of eight is opened.
const ROWS: &str = "no turn by 2|2|MissingKey { amount: 2 }
no turn by 2|1|Count { want: 2, found: 1 }
no turn by 2|3|Count { want: 2, found: 3 }
no relinearisation|2|MissingRelin
no relinearisation|0|Count { want: 2, found: 0 }";

fn refusal(alloc: Global, g: &Given, count: u32) -> Option<RunErr> {
    opened(alloc, g, count).err()
}

fn is_refused(alloc: Global, g: &Given, count: &str, wanted: &str) -> Result<bool, Fail> {
    let Some(why) = refusal(alloc, g, count.parse::<u32>()?) else {
        return Ok(false);
    };
    Ok(format!(in alloc; "{why:?}")?.as_str() == wanted)
}

fn holds(alloc: Global, row: &str) -> Result<bool, Fail> {
    let (keys, rest) = row.split_once('|').ok_or("no count")?;
    let (count, wanted) = rest.split_once('|').ok_or("no refusal")?;
    let g = given_by(alloc, "dot", keys)?;
    is_refused(alloc, &g, count, wanted)
}

#[test]
fn the_first_reason_refuses_a_work(rt: HostRuntime) -> Result<(), Fail> {
    for row in ROWS.lines() {
        assert!(rt; holds(rt.alloc(), row)?, "{row}");
    }
    Ok(())
}
