use heco_row_steps::row_holds;
use std::test::Fail;

/// The dot product of eight with two texts of inputs, its circuit as `c0`, and material for it.
pub const START: &str =
    "put f.he f(in a[8], in b[8], out s) { for i in 0..8 { s += a[i]*b[i]~ } };put f.in a = 1 2 3 4 5 6 7 8$b = 1 1 1 1 1 1 1 1;put f.in2 a = 2 2 2 2 2 2 2 2$b = 1 2 3 4 5 6 7 8;compile f.he c0;draw c0 1 k e";

// Rows of steps; `start` stands for the steps above. With zeros in the second row the files are those of `exec`.
const ROWS: &str =
    "0|0|start;pair f.he f.in f.in2 k e c s v t r;length c 104;length s 22;length v 29967;length t 522;length r 266|0||s = 36$--$s = 72$
0|0|start;pair f.he f.in2 f.in k e c s v t r|0||s = 72$--$s = 36$
0|0|start;pair f.he f.in f.in2 k e c s v t r;picker last;pair f.he f.in f.in2 k e c1 s1 v1 t1 r1;picker drawn;pair f.he f.in f.in2 k e c2 s2 v2 t2 r2;same r1 r;same r2 r|0||s = 36$--$s = 72$s = 36$--$s = 72$s = 36$--$s = 72$
0|0|start;put f.in2 a = 0 0 0 0 0 0 0 0$b = 0 0 0 0 0 0 0 0;exec f.he f.in k e c1 s1 v1 t1 r1;pair f.he f.in f.in2 k e c s v t r;same c c1;same s s1;same v v1;same t t1;same r r1|0||s = 36$s = 36$--$s = 0$
0|0|start;set k 144 03;pair f.he f.in f.in2 k e c s v t r;absent c|3|k: Bounds at 144$|
0|0|start;cut k 16863;pair f.he f.in f.in2 k e c s v t r;absent c|3|k: Length at 16863$|
0|0|start;set e 48 02;pair f.he f.in f.in2 k e c s v t r;absent c|3|e: Bounds at 48$|
0|0|start;set e 96 00;pair f.he f.in f.in2 k e c s v t r;absent c|3|e: Length at 96$|
0|0|start;set k 144 03;set e 0 02;pair f.he f.in f.in2 k e c s v t r;absent c|3|k: Bounds at 144$|
0|0|start;pair f.he f.in f.in2 k no c s v t r;absent c|4|no: read fault$|
0|0|start;pair f.he f.in f.in2 k e c s v t|2|usage: heco COMMAND WORDS$|
0|0|start;pair f.he f.in f.in2 k e c s v t r r|2|usage: heco COMMAND WORDS$|
0|0|start;pair f.he f.in f.in k e c s v t r|2|usage: heco COMMAND WORDS$|
0|0|start;pair f.he f.in f.in2 k e f.in2 s v t r|2|usage: heco COMMAND WORDS$|";

#[test]
fn material_and_files_are_as_they_should_be(rt: HostRuntime) -> Result<(), Fail> {
    for row in ROWS.lines() {
        assert!(rt; row_holds(rt.alloc(), row, START)?, "{row}");
    }
    Ok(())
}
