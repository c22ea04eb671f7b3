use heco_row_steps::row_holds;
use std::test::Fail;

// Keys for the dot product of eight, and its inputs encrypted.
const ENCRYPTED: &str =
    "draw dot 1 k e;keys dot k s v;put i a = 1 2 3 4 5 6 7 8$b = 1 1 1 1 1 1 1 1;encrypt dot v e i c";

// Rows of `row_holds`, where `start` stands for the steps above. What is measured is from a model in another language, by
// the written formulas on the same material.
const MEASURED: &str =
    "0|0|zeros k 160;set k 0 01;set k 23 05;zeros e 48;set e 0 01;set e 16 02;set e 32 ff;keys copy k s v;put i x = 0;encrypt copy v e i c;measure copy s v c|0||0 257 4754$
0|0|put f.he params p8~fn f(in x, out y) { y = x + 1~ };compile f.he f;zeros k 160;zeros e 48;keys f k s v;put i x = 0;encrypt f v e i c;measure f s v c|0||0 0 4754$1 4 4882$
0|0|zeros k 160;set k 0 01010101;set k 144 fe;set k 157 020202;zeros e 48;set e 0 01010101;set e 16 02;set e 32 02;set e 45 fefefe;keys copy k s v;put i x = 255;encrypt copy v e i c;measure copy s v c|0||0 4754 4754$
0|0|hex w 48434952010100010000000161000800000001080001000000000000;hex k `16*00``6*03ffffffffffffff``5*0000000000000001``5*03ffffffffffffff``16*00`;hex row `128*00``16*02`;append k row 29;zeros e 48;set e 0 01;keys w k s v;put i a = 0 0 0 0 0 0 0 0;encrypt w v e i c;measure w s v c|0||0 0 4754$1 715488 720242$
0|0|zeros k 160;keys copy k s v;zeros c 266;set c 0 48435453010100000001;set c 10 0000000000100000;measure copy s v c|0||0 269484032 4754$
0|0|zeros k 160;keys copy k s v;zeros c 266;set c 0 48435453010100000001;set c 18 0003fc03fc03fc07;measure copy s v c|0||0 775 4754$
0|0|put f.he f(in x[2], out y[2]) { for i in 0..2 { y[i] = x[i] + 1~ } };put i x = 3 5;put i2 x = 4 250;zeros k 160;set k 0 01;set k 23 05;set k 144 02;zeros e 48;set e 0 01;set e 16 02;set e 32 ff;pair f.he i i2 k e c s v t r;measure c s v t|0||y = 4 6$--$y = 5 251$0 320 4754$1 316 4882$
0|0|hex all 484349520201000200000001780002000000017a00020000000d0100000000020000000200000001030000000300000000040000000400000001050000000506000000c8000000060700000005000000070800030000000804000000010000000003000000040000000a010000000b06000000020000000c07000000640000000d00010000000179000101000000090000;hex k 01ff0001`8*00`ff000000;hex row `16*0211223344556677``4*02fe0100`;append k row 59;hex e 010000ff`10*00`0101`16*02``16*fe`010000ff`10*00`0101`16*02``16*fe`;keys all k s v;put i x = 3 4$z = 5 250;encrypt all v e i c;measure all s v c|0||0 1866 4754$1 1751 4754$2 1866 4754$3 236 9508$4 2040 14262$5 715043 195946261$6 751023 196661749$7 42808311 11209719693$8 42808311 11209719821$9 42786980 11210435309$10 624114 97975829$11 623866 97990091$12 623866 97990091$13 1247732 195980182$14 1247732 195980310$
0|0|start;measure dot s v c|0||0 1397 4754$1 1542 4754$2 988927 97975829$3 978904 98691317$4 970423 99406805$5 1938569 198098122$6 1938826 198813610$7 3877395 396911732$8 3893586 397627220$9 7770981 794538952$
0|0|draw five 1 k e;keys five k s v;put i ;encrypt five v e i c;measure five s v c|0||";

const DOT_OF_64: &str =
    "0|0|put f.he params p64~ fn dot(in a[64], in b[64], out s) { for i in 0..64 { s += a[i]*b[i]~ } };compile f.he f;put i a =`64* 256`$b =`64* 256`;hex k `8*01``120*00`;hex w `128*03ffffffffffffff``128*04`;append k w 204;hex e `8*01``120*00``256*04``8*01``120*00``256*04`;keys f k s v;encrypt f v e i c;measure f s v c|0||0 1096 17604$1 1096 17604$2 350480 5218689353$3 350480 5230137161$4 6484624 5241584969$5 6585372 10471722130$6 12628984 10483169938$7 19214356 20954892068$8 24866300 20966339876$9 44080656 41921231944$10 49799420 41932679752$11 93880076 83853911696$12 99437444 83865359504$13 193317520 167719271200$14 198877972 167730719008$15 392195492 335449990208$";

// What is refused, in the order in which it is judged, and what is left when a call fails.
const REFUSED: &str =
    "0|0|start;hex w 48434952010100010000000161000800000004040000000000000000050000000108000100000002080004000000020000;draw w 1 kw ew;keys w kw sw vw;measure dot s vw no|3|vw: MissingKey 2$|
0|0|start;hex w 48434952010100010000000161000800000001080001000000000000;draw w 1 kw ew;keys w kw sw vw;measure dot s vw no|3|vw: MissingRelin$|
0|0|start;cut dot 50;zeros s 0;measure dot s v c|3|dot: Malformed at 48$|
0|0|start;set s 5 02;zeros v 0;measure dot s v c|3|s: WrongPreset want 1 found 2$|
0|0|start;set s 6 02;zeros v 0;measure dot s v c|3|s: Malformed at 6$|
0|0|start;set v 5 04;zeros c 0;measure dot s v c|3|v: WrongPreset want 1 found 4$|
0|0|start;set c 6 00000001;measure dot s v c|3|c: Count want 2 found 1$|
0|0|start;set c 10 0400000000000000;measure dot s v c|3|c: Malformed at 10$|
0|0|start;set c 0 48524553;measure dot s v c|3|c: Malformed at 0$|
0|0|start;measure dot s v|2|usage: heco COMMAND WORDS$|
0|0|start;measure dot s v c c|2|usage: heco COMMAND WORDS$|
0|0|start;measure dot s v s|2|usage: heco COMMAND WORDS$|
0|0|start;measure dot no v c|4|no: read fault$|
13|0|start;measure dot s v c|4|dot: read fault$|
14|0|start;measure dot s v c|4|s: read fault$|
15|0|start;measure dot s v c|4|v: read fault$|
16|0|start;measure dot s v c|4|c: read fault$|
0|1|start;measure dot s v c|4|standard output: write fault$|";

#[test]
fn measured_noises_are_those_of_the_formulas(rt: HostRuntime) -> Result<(), Fail> {
    for row in MEASURED.lines() {
        assert!(rt; row_holds(rt.alloc(), row, ENCRYPTED)?, "{row}");
    }
    Ok(())
}

#[test]
fn the_dot_product_of_64_is_measured_below_its_bounds(rt: HostRuntime) -> Result<(), Fail> {
    assert!(rt; row_holds(rt.alloc(), DOT_OF_64, ENCRYPTED)?);
    Ok(())
}

#[test]
fn measure_refuses_in_order(rt: HostRuntime) -> Result<(), Fail> {
    for row in REFUSED.lines() {
        assert!(rt; row_holds(rt.alloc(), row, ENCRYPTED)?, "{row}");
    }
    Ok(())
}
