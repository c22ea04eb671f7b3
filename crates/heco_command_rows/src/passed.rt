use heco_row_steps::{Bench, row_holds};
use std::cell::Cell;
use std::rc::Rc;
use std::test::Fail;

// Rows of `row_holds`: what the usual passes make of what is compiled, and what comes without them.
const PASSED: &str =
    "0|0|put f.he f(in x, in z, out y) { y = x - z~ };compile f.he c;hex d 484349520201000200000001780001000000017a00010000000103000000000000000100010000000179000101000000020000;same c d|0||
0|0|passes none;put f.he f(in x, in z, out y) { y = x - z~ };compile f.he c;show c|0||params p8$in x[1]$in z[1]$2 Neg 1 : 4754$3 Add 0 2 : 9508$out y[1] = 3@0$
0|0|put f.he f(in x, in z, out y) { y = x - z~ };put f.in x = 3$z = 5;zeros k 160;zeros e 96;exec f.he f.in k e c s v t r|0||y = 255$
0|0|put f.he f(in x, out y) { y = 2*(3*x)~ };compile f.he c;show c|0||params p8$in x[1]$1 Scale 6 0 : 28524$out y[1] = 1@0$
0|0|put f.he f(in x, out y) { y = 2*(3*x)~ };put f.in x = 4;zeros k 160;zeros e 48;exec f.he f.in k e c s v t r|0||y = 24$
0|0|put f.he f(in a[8], in b[8], out d) { for i in 0..8 { d += (a[i]-b[i])*(a[i]-b[i])~ } };compile f.he c;show c|0||params p8$in a[8]$in b[8]$2 Sub 0 1 : 9508$3 Mul 2 2 : 195946261$4 Relin 3 : 196661749$5 Turn 1 4 : 197377237$6 Add 4 5 : 394038986$7 Turn 2 6 : 394754474$8 Add 6 7 : 788793460$9 Turn 4 8 : 789508948$10 Add 8 9 : 1578302408$out d[1] = 10@0$
0|0|put f.he f(in x, out y) { y = 0 - (0 - x)~ };compile f.he c;show c|0||params p8$in x[1]$out y[1] = 0@0$
0|0|put f.he f(in x, in z, out y) { y = x - z~ };put f.in x = 3$z = 5;put g.in x = 1$z = 1;zeros k 160;zeros e 96;pair f.he f.in g.in k e c s v t r;show c|0||y = 255$--$y = 0$params p8$in x[1]$in z[1]$2 Sub 0 1 : 9508$out y[1] = 2@0$";

#[test]
fn passes_run_over_what_is_compiled(rt: HostRuntime) -> Result<(), Fail> {
    for row in PASSED.lines() {
        assert!(rt; row_holds(rt.alloc(), row, "")?, "{row}");
    }
    Ok(())
}

#[test]
fn a_pass_is_shown_two_windows(rt: HostRuntime) -> Result<(), Fail> {
    let alloc = rt.alloc();
    let windows = Rc::new(alloc, Cell::new(0))?;
    let mut bench = Bench::new(alloc, 0, 0, 0)?;
    bench.step(alloc, "put f.he f(in x, in z, out y) { y = x - z~ }")?;
    bench.watched(alloc, "compile f.he c", Rc::clone(&windows)?)?;
    assert_eq!(rt; windows.get(), 2);
    Ok(())
}
