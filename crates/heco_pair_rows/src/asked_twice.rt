use crate::material::START;
use heco_row_steps::Bench;
use std::cell::Cell;
use std::rc::Rc;
use std::test::Fail;

#[test]
fn a_picker_is_asked_twice_for_each_gate(rt: HostRuntime) -> Result<(), Fail> {
    let alloc = rt.alloc();
    let calls = Rc::new(alloc, Cell::new(0))?;
    let mut bench = Bench::new(alloc, 0, 0, 0)?;
    bench.steps(alloc, START)?;
    bench.counted(
        alloc,
        "pair f.he f.in f.in2 k e c s v t r",
        Rc::clone(&calls)?,
    )?;
    assert_eq!(rt; calls.get(), 16);
    Ok(())
}
