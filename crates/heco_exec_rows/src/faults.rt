use heco_row_steps::Faulty;
use std::test::Fail;

// The dot product of eight is run once, and other files lie where the next run writes.
const EXEC: Faulty = Faulty {
    before: "put f.he f(in a[8], in b[8], out s) { for i in 0..8 { s += a[i]*b[i]~ } };put f.in a = 1 2 3 4 5 6 7 8$b = 1 1 1 1 1 1 1 1;compile f.he c0;draw c0 1 k e;exec f.he f.in k e c0 s0 v0 t0 r0;put old old;copy c old;copy s old;copy v old;copy t old;copy r old",
    calls: 14,
    printed: "s = 36\n",
    command: "exec f.he f.in k e c s v t r",
};

// The call that fails, the answer, the line, and which files are new.
const ROWS: &str = "1|ReadFault { which: 1 }|f.he: read fault|ooooo
2|ReadFault { which: 2 }|f.in: read fault|ooooo
3|ReadFault { which: 3 }|k: read fault|ooooo
4|ReadFault { which: 4 }|e: read fault|ooooo
5|WriteFault { which: 5 }|c: write fault|ooooo
6|WriteFault { which: 6 }|s: write fault|noooo
7|WriteFault { which: 7 }|v: write fault|nnooo
8|WriteFault { which: 8 }|t: write fault|nnnoo
9|WriteFault { which: 9 }|r: write fault|nnnno
0|WriteFault { which: 0 }|standard output: write fault|nnnnn";

#[test]
fn each_failing_call_leaves_what_it_says(rt: HostRuntime) -> Result<(), Fail> {
    for row in ROWS.lines() {
        assert!(rt; EXEC.holds(rt.alloc(), row)?, "{row}");
    }
    Ok(())
}
