use heco_row_steps::row_holds;
use std::test::Fail;

// Keys for the circuit that copies one number, the number 5 encrypted, and that file as one of results.
const COPIED: &str =
    "draw copy 7 k e;keys copy k s v;put i x = 5;encrypt copy v e i c;copy r c;set r 0 48524553";

// Keys for the dot product of eight, and its inputs encrypted.
const ENCRYPTED: &str =
    "draw dot 1 k e;keys dot k s v;put i a = 1 2 3 4 5 6 7 8$b = 1 1 1 1 1 1 1 1;encrypt dot v e i c";

// Rows of `row_holds`. In those of `encrypt` and `decrypt` `start` stands for the first steps above, in those of `run`
// for the second.
const KEYS: &str =
    "0|0|draw dot 1 k e;keys dot k s v;length k 16864;digest k 61d915a01072a1c2;length e 96;digest e dddc1ff83e2ecb10;length s 22;digest s 371bd8deac32f125;length v 29967;digest v 7d41b1423452a10b|0||
0|0|draw copy 007 k e;keys copy k s v;length k 160;digest k 62d748492e622f8d;length e 48;digest e bd7967491c79d7e3;length s 22;digest s 98a7d81b9ab96fa5;length v 265;digest v 4db4978fc43fb283|0||
0|0|draw five 5 k e;length k 160;length e 0;draw dot 1 k e;draw dot 1 again e;same again k|0||
0|0|draw dot 1 k e;set k 144 03;keys dot k s v;absent s|3|k: Bounds at 144$|
0|0|draw dot 1 k e;set k 144 80;keys dot k s v;absent s|3|k: Bounds at 144$|
0|0|draw dot 1 k e;set k 0 0101010101;keys dot k s v;absent s|3|k: Bounds at 4$|
0|0|draw dot 1 k e;set k 16 0400000000000000;keys dot k s v;absent s|3|k: Bounds at 16$|
0|0|draw dot 1 k e;set k 0 02;cut k 16863;keys dot k s v;absent s|3|k: Length at 16863$|
0|0|draw dot 1 k e;set k 0 02;set k 16864 00;keys dot k s v;absent s|3|k: Length at 16864$|
4|0|draw dot 1 k e;keys dot k s v;absent s|4|dot: read fault$|
5|0|draw dot 1 k e;keys dot k s v;absent s|4|k: read fault$|
6|0|draw dot 1 k e;keys dot k s v;absent s;absent v|4|s: write fault$|
7|0|draw dot 1 k e;keys dot k s v;length s 22;absent v|4|v: write fault$|
0|0|zeros k 160;set k 0 01;set k 23 05;zeros e 48;set e 0 01;set e 16 02;set e 32 ff;keys copy k s v;zeros t 22;set t 0 48534543010101;same s t;zeros w 265;set w 0 484556410101;set w 9 03fffffffffffffb;set w 137 0000000000000005;same v w|0||";

const ENCRYPT: &str =
    "0|0|zeros k 160;set k 0 01;set k 23 05;zeros e 48;set e 0 01;set e 16 02;set e 32 ff;keys copy k s v;put i x = 0;encrypt copy v e i c;zeros d 266;set d 0 48435453010100000001;set d 10 03fffffffffffffd;set d 138 0000000000000004;same c d;copy r c;set r 0 48524553;decrypt copy s r|0||y = 0$
0|0|start;digest k 62d748492e622f8d;digest e bd7967491c79d7e3;digest s 98a7d81b9ab96fa5;digest v 4db4978fc43fb283;digest c 452dd17874b44873;decrypt copy s r|0||y = 5$
0|0|draw dot 1 k e;keys dot k s v;put i a = 1 2 3 4 5 6 7 8$b = 1 1 1 1 1 1 1 1;encrypt dot v e i c;length s 22;length v 29967;length c 522;digest s 371bd8deac32f125;digest v 7d41b1423452a10b;digest c 3b3f30b19ab719ea|0||
0|0|draw dot 1 k e;draw copy 7 k7 e7;keys copy k7 s7 v7;put i a = 1 2 3 4 5 6 7 8$b = 1 1 1 1 1 1 1 1;encrypt dot v7 e i c;length c 522|0||
0|0|draw copy 1 k e;draw dot 1 kd ed;keys dot kd s v;put i x = 256;encrypt copy v e i c;copy r c;set r 0 48524553;decrypt copy s r|0||y = 256$
0|0|draw five 1 k e;length k 160;length e 0;keys five k s v;put i ;encrypt five v e i c;length c 10;copy r c;set r 0 48524553;decrypt five s r|0||y = 5$
0|0|hex two 4843495201010002000000016100020000000162000100000000000200000001710001010000000100000000000170000301000000000001000000000701000000000000;draw two 3 k e;keys two k s v;put i b = 9$a = 5 6;encrypt two v e i c;length c 522;copy r c;set r 0 48524553;decrypt two s r|0||q = 9$p = 6 7 5$
0|0|hex two 4843495201010002000000016100020000000162000100000000000200000001710001010000000100000000000170000301000000000001000000000701000000000000;draw two 3 k e;keys two k s v;put i b = 9$a = 5 6;encrypt two v e i c;length c 522;copy r c;set r 0 48524553;set r 6 00000001;decrypt two s r|3|r: Count want 2 found 1$|
0|0|draw copy 7 k e;keys copy k s v;put i x = 5;cut copy 34;encrypt copy v e i c;absent c|3|copy: Malformed at 33$|
0|0|draw copy 7 k e;keys copy k s v;put i x = 5;set v 0 00;encrypt copy v e i c;absent c|3|v: Malformed at 0$|
0|0|draw copy 7 k e;keys copy k s v;put i x = 5;set v 5 00;encrypt copy v e i c;absent c|3|v: Malformed at 5$|
0|0|draw copy 7 k e;keys copy k s v;put i x = 5;set v 5 04;encrypt copy v e i c;absent c|3|v: WrongPreset want 1 found 4$|
0|0|draw copy 7 k e;keys copy k s v;put i x = 5;set v 5 04;cut v 6;encrypt copy v e i c;absent c|3|v: WrongPreset want 1 found 4$|
0|0|draw copy 7 k e;keys copy k s v;put i x = 5;set v 6 02;encrypt copy v e i c;absent c|3|v: Malformed at 6$|
0|0|draw copy 7 k e;keys copy k s v;put i x = 5;set v 9 0400000000000000;encrypt copy v e i c;absent c|3|v: Malformed at 9$|
0|0|draw copy 7 k e;keys copy k s v;put i x = 5;cut v 264;encrypt copy v e i c;absent c|3|v: Malformed at 257$|
0|0|draw copy 7 k e;keys copy k s v;put i x = 5;set v 265 00;encrypt copy v e i c;absent c|3|v: Malformed at 265$|
0|0|draw copy 7 k e;keys copy k s v;put i x = 5;set e 0 02;encrypt copy v e i c;absent c|3|e: Bounds at 0$|
0|0|draw copy 7 k e;keys copy k s v;put i x = 5;set e 16 03;encrypt copy v e i c;absent c|3|e: Bounds at 16$|
0|0|draw copy 7 k e;keys copy k s v;put i x = 5;set e 0 0101010101;encrypt copy v e i c;absent c|3|e: Bounds at 4$|
0|0|draw copy 7 k e;keys copy k s v;put i x = 5;cut e 47;encrypt copy v e i c;absent c|3|e: Length at 47$|
0|0|draw copy 7 k e;keys copy k s v;put i x = 5;set e 48 00;encrypt copy v e i c;absent c|3|e: Length at 48$|
0|0|draw copy 7 k e;keys copy k s v;put i x = 5;set e 0 02;cut e 47;encrypt copy v e i c;absent c|3|e: Length at 47$|
0|0|draw copy 7 k e;keys copy k s v;put i x = 5;put i x = 257;encrypt copy v e i c;absent c|3|i:1: InputValue$|
0|0|draw copy 7 k e;keys copy k s v;put i x = 5;put i x = 1$x = 2;encrypt copy v e i c;absent c|3|i:2: InputName$|
0|0|draw copy 7 k e;keys copy k s v;put i x = 5;put i x = 1 2;encrypt copy v e i c;absent c|3|i:1: InputCount$|
0|0|draw copy 7 k e;keys copy k s v;put i x = 5;put i x 1;encrypt copy v e i c;absent c|3|i:1: InputText$|
0|0|draw copy 7 k e;keys copy k s v;put i x = 5;put i y = 1;encrypt copy v e i c;absent c|3|i:1: InputName$|
0|0|draw copy 7 k e;keys copy k s v;put i x = 5;put i ;encrypt copy v e i c;absent c|3|i: InputMissing 0$|
0|0|draw copy 7 k e;keys copy k s v;put i x = 5;zeros copy 10485760;encrypt copy v e i c;absent c|3|copy: Malformed at 0$|
0|0|draw copy 7 k e;keys copy k s v;put i x = 5;zeros v 10485760;encrypt copy v e i c;absent c|3|v: Malformed at 0$|
0|0|draw copy 7 k e;keys copy k s v;put i x = 5;zeros e 10485760;encrypt copy v e i c;absent c|3|e: Length at 48$|
0|0|draw copy 7 k e;keys copy k s v;put i x = 5;zeros i 10485760;encrypt copy v e i c;absent c|3|i: InputLong$|
0|0|draw copy 7 k e;keys copy k s v;put i x = 5;put i x = 257;cut e 47;encrypt copy v e i c;absent c|3|e: Length at 47$|
0|0|draw copy 7 k e;keys copy k s v;put i x = 5;set e 0 02;set v 4 02;encrypt copy v e i c;absent c|3|v: Malformed at 4$|
0|0|draw copy 7 k e;keys copy k s v;put i x = 5;zeros v 0;cut copy 0;encrypt copy v e i c;absent c|3|copy: Malformed at 0$|
0|0|hex c32 4843495201020001000000017800010000000000010000000179000101000000000000;draw c32 7 k e;keys c32 k s v;put i x = 5;encrypt c32 v e i c;copy r c;set r 0 48524553;decrypt c32 s r|0||y = 5$
0|0|hex c32 4843495201020001000000017800010000000000010000000179000101000000000000;draw c32 7 k e;keys c32 k s v;put i x = 5;set v 5 04;encrypt c32 v e i c;absent c|3|v: WrongPreset want 2 found 4$|
0|0|hex c32 4843495201020001000000017800010000000000010000000179000101000000000000;draw c32 7 k e;keys c32 k s v;put i x = 5;set s 5 04;encrypt c32 v e i r;set r 0 48524553;decrypt c32 s r|3|s: WrongPreset want 2 found 4$|
0|0|draw dot 1 k e;keys dot k s v;set v 11 0001;put i a = 1 1 1 1 1 1 1 1$b = 1 1 1 1 1 1 1 1;encrypt dot v e i c;absent c|3|v: Malformed at 11$|
0|0|draw dot 1 k e;keys dot k s v;put i a = 1 1 1 1 1 1 1 1;encrypt dot v e i c;absent c|3|i: InputMissing 1$|
0|0|start;encrypt copy s e i d;absent d|3|s: Malformed at 0$|
0|0|start;encrypt copy v e i|2|usage: heco COMMAND WORDS$|
0|0|start;encrypt copy v e i c c|2|usage: heco COMMAND WORDS$|
0|0|start;encrypt copy v e i i|2|usage: heco COMMAND WORDS$|
0|0|start;encrypt copy v v i c|2|usage: heco COMMAND WORDS$|
0|0|start;encrypt copy v e i copy|2|usage: heco COMMAND WORDS$|
8|0|draw copy 7 k e;keys copy k s v;put i x = 5;encrypt copy v e i c;absent c|4|copy: read fault$|
9|0|draw copy 7 k e;keys copy k s v;put i x = 5;encrypt copy v e i c;absent c|4|v: read fault$|
10|0|draw copy 7 k e;keys copy k s v;put i x = 5;encrypt copy v e i c;absent c|4|e: read fault$|
11|0|draw copy 7 k e;keys copy k s v;put i x = 5;encrypt copy v e i c;absent c|4|i: read fault$|
12|0|draw copy 7 k e;keys copy k s v;put i x = 5;encrypt copy v e i c;absent c|4|c: write fault$|
0|0|draw copy 7 k e;keys copy k s v;put i x = 5;encrypt copy no e i c;absent c|4|no: read fault$|
0|0|draw copy 7 k e;keys copy k s v;put i x = 5;encrypt copy v no i c;absent c|4|no: read fault$|
0|0|draw copy 7 k e;keys copy k s v;put i x = 5;encrypt copy v e no c;absent c|4|no: read fault$|";

const RUN: &str =
    "0|0|start;run dot v c r;length r 266;digest r 4105d2f1044d8300;decrypt dot s r|0||s = 36$
0|0|start;run dot v c r;picker last;run dot v c r1;picker drawn;run dot v c r2;same r1 r;same r2 r|0||
0|0|draw copy 7 k e;keys copy k s v;put i x = 5;encrypt copy v e i c;run copy v c r;copy w c;set w 0 48524553;same r w;decrypt copy s r|0||y = 5$
0|0|draw five 1 k e;keys five k s v;put i ;encrypt five v e i c;run five v c r;length r 10;decrypt five s r|0||y = 5$
0|0|hex d 484349520201000200000001780001000000017a00010000000103000000000000000100010000000179000101000000020000;draw d 1 k e;keys d k s v;put i x = 3$z = 5;encrypt d v e i c;run d v c r;decrypt d s r|0||y = 255$
0|0|hex d 484349520201000200000001780001000000017a000100000003040000000000000001030000000000000002050000000300010000000179000101000000040000;draw d 1 k e;keys d k s v;put i x = 3$z = 5;encrypt d v e i c;run d v c r;decrypt d s r|0||y = 245$
0|0|hex d 484349520201000200000001780001000000017a00010000000103000000000000000100010000000179000101000000020000;set d 4 01;run d v c r;absent r|3|d: Malformed at 26$|
0|0|start;hex w 48434952010100010000000161000800000004040000000000000000050000000108000100000002080004000000020000;draw w 1 kw ew;keys w kw sw vw;run dot vw no r;absent r|3|vw: MissingKey 2$|
0|0|start;hex w 48434952010100010000000161000800000001080001000000000000;draw w 1 kw ew;keys w kw sw vw;run dot vw no r;absent r|3|vw: MissingRelin$|
0|0|hex c32 4843495201020001000000017800010000000000010000000179000101000000000000;hex c4 4843495201040001000000017800010000000000010000000179000101000000000000;draw c4 7 k e;keys c4 k s v;run c32 v no r;absent r|3|v: WrongPreset want 2 found 4$|
0|0|start;set v 4 02;run dot v no r;absent r|3|v: Malformed at 4$|
0|0|start;set c 6 00000001;run dot v c r;absent r|3|c: Count want 2 found 1$|
0|0|start;set c 5 02;run dot v c r;absent r|3|c: WrongPreset want 1 found 2$|
0|0|start;set c 0 48524553;run dot v c r;absent r|3|c: Malformed at 0$|
0|0|start;set c 10 0400000000000000;run dot v c r;absent r|3|c: Malformed at 10$|
0|0|start;cut c 521;run dot v c r;absent r|3|c: Malformed at 514$|
0|0|start;set c 522 00;run dot v c r;absent r|3|c: Malformed at 522$|
0|0|start;cut dot 50;run dot v c r;absent r|3|dot: Malformed at 48$|
0|0|start;run dot v c|2|usage: heco COMMAND WORDS$|
0|0|start;run dot v c r r|2|usage: heco COMMAND WORDS$|
0|0|start;run dot v c c|2|usage: heco COMMAND WORDS$|
0|0|start;run dot v c dot|2|usage: heco COMMAND WORDS$|
0|0|start;run no v c r;absent r|4|no: read fault$|
13|0|start;run dot v c r;absent r|4|dot: read fault$|
14|0|start;run dot v c r;absent r|4|v: read fault$|
15|0|start;run dot v c r;absent r|4|c: read fault$|
16|0|start;run dot v c r;absent r|4|r: write fault$|
0|1|start;run dot v c r|0||";

const DECRYPT: &str = "0|0|set copy 18 01;show copy|3|copy: Malformed at 19$|
0|0|set dot 4 02;show dot|3|dot: Malformed at 88$|
0|0|start;cut copy 34;decrypt copy s r|3|copy: Malformed at 33$|
0|0|start;set s 0 00;decrypt copy s r|3|s: Malformed at 0$|
0|0|start;set s 5 02;decrypt copy s r|3|s: WrongPreset want 1 found 2$|
0|0|start;set s 6 02;decrypt copy s r|3|s: Malformed at 6$|
0|0|start;zeros s 22;set s 0 485345430101;set s 6 0101010101;decrypt copy s r|3|s: Malformed at 10$|
0|0|start;cut s 21;decrypt copy s r|3|s: Malformed at 21$|
0|0|start;set s 22 00;decrypt copy s r|3|s: Malformed at 22$|
0|0|start;copy r c;decrypt copy s r|3|r: Malformed at 0$|
0|0|start;set r 4 02;decrypt copy s r|3|r: Malformed at 4$|
0|0|start;set r 5 06;decrypt copy s r|3|r: Malformed at 5$|
0|0|start;set r 5 02;decrypt copy s r|3|r: WrongPreset want 1 found 2$|
0|0|start;set r 6 00000002;decrypt copy s r|3|r: Count want 1 found 2$|
0|0|start;set r 6 00000000;cut r 10;decrypt copy s r|3|r: Count want 1 found 0$|
0|0|start;set r 6 00000002;cut r 10;decrypt copy s r|3|r: Count want 1 found 2$|
0|0|start;zeros r 522;set r 0 48524553010100000002;decrypt copy s r|3|r: Count want 1 found 2$|
0|0|start;set r 4 02;set r 6 00000002;decrypt copy s r|3|r: Malformed at 4$|
0|0|start;set r 10 0400000000000000;decrypt copy s r|3|r: Malformed at 10$|
0|0|start;cut r 265;decrypt copy s r|3|r: Malformed at 258$|
0|0|start;set r 266 00;decrypt copy s r|3|r: Malformed at 266$|
0|0|start;zeros s 10485760;decrypt copy s r|3|s: Malformed at 0$|
0|0|start;zeros r 10485760;decrypt copy s r|3|r: Malformed at 0$|
0|0|start;set s 5 02;set r 4 02;decrypt copy s r|3|s: WrongPreset want 1 found 2$|
0|0|start;zeros s 22;set s 0 485345430101;set s 6 01ff0001ff;cut r 10;set r 6 00000002;decrypt copy s r|3|r: Count want 1 found 2$|
0|0|start;decrypt copy v r|3|v: Malformed at 0$|
0|0|start;decrypt copy s|2|usage: heco COMMAND WORDS$|
0|0|start;decrypt copy s r r|2|usage: heco COMMAND WORDS$|
0|0|start;decrypt copy s s|2|usage: heco COMMAND WORDS$|
0|0|start;decrypt copy copy r|2|usage: heco COMMAND WORDS$|
13|0|start;decrypt copy s r|4|copy: read fault$|
14|0|start;decrypt copy s r|4|s: read fault$|
15|0|start;decrypt copy s r|4|r: read fault$|
0|1|start;decrypt copy s r|4|standard output: write fault$|
0|2|start;decrypt copy s r|0||y = 5$";

const COMPILE: &str =
    "0|0|put f.he params p8~fn f(in x, out y) { y = x~ };compile f.he c;draw c 7 k e;keys c k s v;put i x = 5;encrypt c v e i r;set r 0 48524553;decrypt c s r|0||y = 5$
0|1|put f.he params p8~fn f(in x, out y) { y = x*x~ };compile f.he c|0||
0|0|put f.he params p8~fn f(in x[2], out y[2]) { int w[2] = {2, 3}~ for i in 0..2 { y[i] = w[i]*x[i]~ } };compile f.he c;show c|0||params p8$in x[2]$vector 0 2 3 0 0 0 0 0 0$1 Weigh 0 0 : 4825310$out y[2] = 1@0 1@1$
0|0|put f.he params p8~fn f(in x[2], out y[2]) { int w[2] = {2, 3}~ for i in 0..2 { y[i] = w[i]*x[i]~ } };compile f.he c;hex d 484349520301000100000001780002000000010000000200000003000000000000000000000000000000000000000000000000000000010900000000000000000001000000017900020100000001000001000000010001;same c d;draw c 7 k e;keys c k s v;put i x = 4 5;encrypt c v e i t;run c v t r;decrypt c s r|0||y = 8 15$
0|0|put deep.he params p8~fn f(in x, out y) { y = x*x~ y = y*y~ y = y*y~ y = y*y~ };compile deep.he c;absent c|1|deep.he: TooDeep out 0 index 0 bound 863747166108134984309$|
0|0|put f.he params p8~fn f(in x, out y[2]) { y[1] = x~ y[2] = x~ };compile f.he c;absent c|1|f.he:1:44: IndexRange$|
0|0|put f.he params p8~fn f(in x, out y) { y = z~ };compile f.he c;absent c|1|f.he:1:35: UnknownName$|
0|0|put f.he params p8~fn f(in x) { };compile f.he f.he|2|usage: heco COMMAND WORDS$|
0|0|compile no.he c;absent c|4|no.he: read fault$|
2|0|put f.he params p8~fn f(in x) { };compile f.he c;absent c|4|c: write fault$|";

#[test]
fn keys_are_made(rt: HostRuntime) -> Result<(), Fail> {
    for row in KEYS.lines() {
        assert!(rt; row_holds(rt.alloc(), row, COPIED)?, "{row}");
    }
    Ok(())
}

#[test]
fn inputs_are_encrypted(rt: HostRuntime) -> Result<(), Fail> {
    for row in ENCRYPT.lines() {
        assert!(rt; row_holds(rt.alloc(), row, COPIED)?, "{row}");
    }
    Ok(())
}

#[test]
fn circuits_are_run(rt: HostRuntime) -> Result<(), Fail> {
    for row in RUN.lines() {
        assert!(rt; row_holds(rt.alloc(), row, ENCRYPTED)?, "{row}");
    }
    Ok(())
}

#[test]
fn results_are_decrypted(rt: HostRuntime) -> Result<(), Fail> {
    for row in DECRYPT.lines() {
        assert!(rt; row_holds(rt.alloc(), row, COPIED)?, "{row}");
    }
    Ok(())
}

#[test]
fn sources_are_compiled(rt: HostRuntime) -> Result<(), Fail> {
    for row in COMPILE.lines() {
        assert!(rt; row_holds(rt.alloc(), row, COPIED)?, "{row}");
    }
    Ok(())
}
