use heco_row_steps::row_holds;
use std::test::Fail;

/// The dot product of eight, its circuit as `c0`, and material for it.
pub const START: &str =
    "put f.he f(in a[8], in b[8], out s) { for i in 0..8 { s += a[i]*b[i]~ } };put f.in a = 1 2 3 4 5 6 7 8$b = 1 1 1 1 1 1 1 1;compile f.he c0;draw c0 1 k e";

// Rows of steps; `start` stands for the steps above.
const ROWS: &str =
    "0|0|start;length k 16864;length e 96;exec f.he f.in k e c s v t r;length s 22;length v 29967;length t 522;length r 266|0||s = 36$
0|0|start;digest k 61d915a01072a1c2;digest e dddc1ff83e2ecb10;exec f.he f.in k e c s v t r;digest s 371bd8deac32f125;digest v 7d41b1423452a10b;digest t 3b3f30b19ab719ea;digest r 4105d2f1044d8300|0||s = 36$
0|0|start;exec f.he f.in k e c s v t r;picker last;exec f.he f.in k e c1 s1 v1 t1 r1;picker drawn;exec f.he f.in k e c2 s2 v2 t2 r2;same r1 r;same r2 r|0||s = 36$s = 36$s = 36$
0|0|start;draw c0 7 k7 e7;digest k7 07b3e5732e8da944;digest e7 a1231b44a515a378;exec f.he f.in k7 e7 c s v t r|0||s = 36$
0|0|start;exec f.he f.in k e c s v t r;put f.in a = 2 2 2 2 2 2 2 2$b = 1 2 3 4 5 6 7 8;exec f.he f.in k e c s v t r|0||s = 36$s = 72$
0|2|start;exec f.he f.in k e c s v t r|0||s = 36$
0|0|put f.he f(out y) { y = 5~ };put f.in ;compile f.he c0;draw c0 1 k e;length k 160;length e 0;exec f.he f.in k e c s v t r;length t 10;length r 10|0||y = 5$
0|0|put f.he f(in x, out y) { y = x + 1~ };put f.in x = 0;zeros k 160;zeros e 48;exec f.he f.in k e c s v t r;zeros z 266;set z 0 48435453010100000001;same t z;set z 0 48524553;set z 10 0003fc03fc03fc04;same r z|0||y = 1$
0|0|put f.he params p64~ fn dot(in a[64], in b[64], out s) { for i in 0..64 { s += a[i]*b[i]~ } };put f.in a =`64* 256`$b =`64* 256`;hex k `8*01``120*00`;hex w `128*03ffffffffffffff``128*04`;append k w 204;hex e `8*01``120*00``256*04``8*01``120*00``256*04`;exec f.he f.in k e c s v t r|0||s = 64$
0|0|start;set k 144 03;exec f.he f.in k e c s v t r;absent c|3|k: Bounds at 144$|
0|0|start;set k 0 0101010101;exec f.he f.in k e c s v t r;absent c|3|k: Bounds at 4$|
0|0|start;set k 16 0400000000000000;exec f.he f.in k e c s v t r;absent c|3|k: Bounds at 16$|
0|0|start;cut k 16863;exec f.he f.in k e c s v t r;absent c|3|k: Length at 16863$|
0|0|start;set k 16864 00;exec f.he f.in k e c s v t r;absent c|3|k: Length at 16864$|
0|0|start;set k 144 03;set e 0 02;exec f.he f.in k e c s v t r;absent c|3|k: Bounds at 144$|
0|0|start;set e 48 02;exec f.he f.in k e c s v t r;absent c|3|e: Bounds at 48$|
0|0|start;cut e 95;exec f.he f.in k e c s v t r;absent c|3|e: Length at 95$|
0|0|start;set e 96 00;exec f.he f.in k e c s v t r;absent c|3|e: Length at 96$|
0|0|start;exec f.he f.in k no c s v t r;absent c|4|no: read fault$|
0|0|start;exec f.he f.in k e c s v t|2|usage: heco COMMAND WORDS$|
0|0|start;exec f.he f.in k e c s v t r r|2|usage: heco COMMAND WORDS$|
0|0|start;exec f.he f.in k e c s v t c|2|usage: heco COMMAND WORDS$|
0|0|start;exec f.he f.in k e f.he s v t r|2|usage: heco COMMAND WORDS$|
0|0|start;exec f.he f.in k k c s v t r|2|usage: heco COMMAND WORDS$|";

#[test]
fn material_and_files_are_as_they_should_be(rt: HostRuntime) -> Result<(), Fail> {
    for row in ROWS.lines() {
        assert!(rt; row_holds(rt.alloc(), row, START)?, "{row}");
    }
    Ok(())
}
