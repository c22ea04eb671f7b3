use heco_row_steps::{Bench, text_of};
use std::alloc::Global;
use std::test::Fail;

// The source, the input text, what is printed, the line on the error stream, and the status. `none` stands for a file
// that is absent; the other marks are those of `text_of`.
const ROWS: &str =
    "params p8; fn dot(in a[8], in b[8], out s) { for i in 0..8 { s += a[i]*b[i]; } }|a = 1 2 3 4 5 6 7 8$b = 1 1 1 1 1 1 1 1$|s = 36$||0
f(in a[8], out y[7]) { for i in 0..7 { y[i] = a[i] + a[i+1]; } }|a = 1 2 3 4 5 6 7 8$|y = 3 5 7 9 11 13 15$||0
f(in a[8], out y[7]) { for i in 0..7 { y[i] = a[i+1] - a[i]; } }|a = 1 2 3 4 5 6 7 8$|y = 1 1 1 1 1 1 1$||0
f(in x, out y) { y = x*x; y = y*y; y = y*y; }|x = 3|y = 136$||0
f(in x, out y) { y = x*x; y = y*y; y = y*y; y = y*y; }|x = 3|y = 249$||0
f(in x, out y) { secret z = x*x; z = z*z; z = z*z; z = z*z; y = x; }|x = 3|y = 3$||0
f(in a[8], out y) { for i in 0..7 { y += a[i]; } }|a = 1 2 3 4 5 6 7 8$|y = 28$||0
f(in a[8], out y) { y = a[0]+a[0]+a[1]; }|a = 1 2 3 4 5 6 7 8$|y = 4$||0
f(in a[8], out y) { y = a[6]+a[7]+a[0]; }|a = 1 2 3 4 5 6 7 8$|y = 16$||0
f(out y) { y = 5; }||y = 5$||0
f(in x) { }|x = 1|||0
params p8;fn f(){}||||0
f(in x, out y) { for i in 3..3 { y = 1; } for i in 5..2 { y = 2; } }|x = 1|y = 0$||0
params p64; fn dot(in a[64], in b[64], out s) { for i in 0..64 { s += a[i]*b[i]; } }|a =`64* 256`$b =`64* 256`$|s = 64$||0
params q512; fn dot(in a[512], in b[512], out s) { for i in 0..512 { s += a[i]*b[i]; } }|b =`512* 1`$a =`1..512`$|s = 254$||0
f(in a, in b, in c, in d, out y) { y = a*b + c*d; }|d = 5$c = 4$b = 3$a = 2$|y = 26$||0
f(in x, out y) { y = x + 1; }|x = 0|y = 1$||0
f(in a[8], in b[8], out s) { for i in 0..8 { s += (a[i]-b[i])*(a[i]-b[i]); } }|a = 1 0 1 1 0 0 1 0$b = 1 1 0 1 0 1 1 0$|s = 3$||0
params p64;$fn blur(in img[64], out o[64]) {$  for x in 1..7 {$    for y in 1..7 {$      for i in 0..3 {$        for j in 0..3 {$          o[x*8+y] += img[(x+i-1)*8 + y+j-1];$        }$      }$    }$  }$}$|img =`64* 1`|o =`9* 0``5* 9 9 9 9 9 9 0 0``6* 9``9* 0`$||0
f(in x[3], out y) { int w[3] = {2, 3, 1}; for i in 0..3 { y += w[i]*x[i]; } }|x = 4 5 6|y = 29$||0
f(in x, in z, out y, out w[2]) { w[1] = x - z; y = -x; }|x = 2$z = 3$|y = 255$w = 0 256$||0
params q32;fn f(in x, out y) { y = x*65536*65536; }|x = 3|y = 3$||0
f(in x, out y) { // y = 1;$ y = x; // }$}$// end|x = 7|y = 7$||0
params p8;$fn f(in x, out y) {$for i in 0..131071 { y = 1; }$y = 2;$}|x = 1|y = 2$||0
params p8;$fn f(in x, out y) {$y = `64*(`x`64*)`;$}|x = 9|y = 9$||0
f(in x, out y) { for a in 0..1 { for b in 0..1 { for c in 0..1 { for d in 0..1 { for e in 0..1 { for g in 0..1 { for h in 0..1 { y += x; } } } } } } } }|x = 9|y = 9$||0
params p8;fn f(in x, out y) { y = x; }`1048538* `|x = 9|y = 9$||0
`1048577* `|||f.he: SourceLong$|1
`1048577*@`|||f.he: SourceLong$|1
`1048576* `|||f.he:1:1048577: Syntax$|1
`65537* `|||f.he:1:65538: Syntax$|1
params p8;fn f(in x, out y) { y = x; }`1048539* `|||f.he: SourceLong$|1
|||f.he:1:1: Syntax$|1
params p8;|||f.he:1:11: Syntax$|1
params p8;$|||f.he:2:1: Syntax$|1
params p8;@|||f.he:1:11: BadByte$|1
f(out y) { for i in 0...8 { y = 1; } }|||f.he:1:38: BadByte$|1
f(out y) { for i in 0....8 { y = 1; } }|||f.he:1:38: Syntax$|1
f(in x, out y) { y = x x; }|||f.he:1:38: Syntax$|1
f(in x, out y) { y = x x; } @|||f.he:1:43: BadByte$|1
f(in def, out y) { }|||f.he:1:20: Syntax$|1
f(in x, out y) { y = 12345678901; }|||f.he:1:46: Syntax$|1
params p8;$fn f(in x, out y) {$y = `65*(`x`65*)`;$}|||f.he:3:69: TooNested$|1
f(in x, out y) {`8*for i in 0..1 {`y = x;`8*}`}|||f.he:1:150: TooNested$|1
params p9;fn f(){}|||f.he:1:8: UnknownParams$|1
f(in x, out y) { y = z; }|||f.he:1:36: UnknownName$|1
f(in x, in x, out y) { y = x; }|||f.he:1:26: Redeclared$|1
f(in x, out y) { x = y; }|||f.he:1:32: NotAssignable$|1
f(in a[1], out y) { y = a; }|||f.he:1:39: Kind$|1
f(in a[8], in x, out y) { y = a[x]; }|||f.he:1:47: SecretIndex$|1
f(in x, out y) { for i in x..2 { y = 1; } }|||f.he:1:41: SecretBound$|1
params p8;$fn f(in x, out y) {$  int k = x;$}|||f.he:3:11: SecretToPublic$|1
f(in a[9], out y) { y = a[0]; }|||f.he:1:22: Length$|1
f(in x, out y) { int w[2] = {x}; }|||f.he:1:38: Length$|1
params p8; def sq(x) = x*x; fn f(in a, out s) { s = sq(); }|||f.he:1:53: Length$|1
params p8; def d1(x) = x; def d2(x) = d1(x); def d3(x) = d2(x); def d4(x) = d3(x); def d5(x) = d4(x); def d6(x) = d5(x); def d7(x) = d6(x); def d8(x) = d7(x); def d9(x) = d8(x); fn f(in x, out y) { y = d9(x); }|||f.he:1:172: TooNested$|1
params p8;$fn f(in a[8], out y) {$  for i in 0..9 { y += a[i]; }$}|a = 1 2 3 4 5 6 7 8$||f.he:3:24: IndexRange$|1
f(in a[8], out y) { y = a[0-1]; }|a = 1 2 3 4 5 6 7 8$||f.he:1:39: IndexRange$|1
params p8;$fn f(in x, out y) {$int k = 65536 * 65536;$}|x = 1||f.he:3:15: PublicRange$|1
f(in x, out y) { y = 65536*65536*x; }|x = 1||f.he:1:41: PublicRange$|1
f(in x, out y) { y = 2147483649; }|x = 1||f.he:1:36: PublicRange$|1
params p8;$fn f(in x, out y) {$for i in 0..131071 { y = 1; }$y = 2;$y = 3;$}|x = 1||f.he:5:1: TooLarge$|1
f(in x, out y) { y = x; }|x = 256\r$|y = 256$||0
f(in x, out y) { y = x; }|\tx=\t00256 |y = 256$||0
f(in x, out y) { y = x; }|$ \t$\r$ # x = 1 é\r in$x = 3|y = 3$||0
f(in x, out y) { y = x; }|x = `5000*0`7|y = 7$||0
f(in x, out y) { y = x; }|x = 257||f.in:1: InputValue$|3
f(in x, out y) { y = x; }|x = `5000*9`||f.in:1: InputValue$|3
f(in x, out y) { y = x; }|x = 4294967297||f.in:1: InputValue$|3
f(in x, out y) { y = x; }|||f.in: InputMissing 0$|3
f(in x, out y) { y = x; }|$# x = 1$||f.in: InputMissing 0$|3
f(in x, out y) { y = x; }|x = 1$x = 2$||f.in:2: InputName$|3
f(in x, out y) { y = x; }|z = 1||f.in:1: InputName$|3
f(in x, out y) { y = x; }|y = 1||f.in:1: InputName$|3
f(in x, out y) { y = x; }|x = 1 2||f.in:1: InputCount$|3
f(in x, out y) { y = x; }|x =||f.in:1: InputCount$|3
f(in x, out y) { y = x; }|x 1||f.in:1: InputText$|3
f(in x, out y) { y = x; }|in = 1||f.in:1: InputText$|3
f(in x, out y) { y = x; }|x = -1||f.in:1: InputText$|3
f(in x, out y) { y = x; }|x = +1||f.in:1: InputText$|3
f(in x, out y) { y = x; }|x = 1\r||f.in:1: InputText$|3
f(in x, out y) { y = x; }|x = 1\r\r$||f.in:1: InputText$|3
f(in x, out y) { y = x; }|x = 1$y||f.in:2: InputText$|3
f(in x, out y) { y = x; }|x = 257$y||f.in:1: InputValue$|3
f(in a[3], in b, in c, out y) { y = c; }|a = 1 2 3$||f.in: InputMissing 1$|3
f(in a[3], in b, in c, out y) { y = c; }|c = 1$b = 1$||f.in: InputMissing 0$|3
f(in x, out y) { y = x; }|`4194305* `||f.in: InputLong$|3
f(in x, out y) { y = x; }|`4194305*x`||f.in: InputLong$|3
f(in x, out y) { y = x; }|`4194304* `||f.in: InputMissing 0$|3
f(in x, out y) { y = x; }|x = 1`4194299* `|y = 1$||0
params q32; fn f(in x, out y) { y = x; }|x = 65537||f.in:1: InputValue$|3
params q32; fn f(in x, out y) { y = x; }|x = 65536|y = 65536$||0
f(in x, out y) { y = z; }|x = 257||f.he:1:36: UnknownName$|1
f(in x, out y) { y = ; }|x 1||f.he:1:36: Syntax$|1
params p8;$fn f(in a[8], out y) {$  for i in 0..9 { y += a[i]; }$}|a = 1$||f.in:1: InputCount$|3
params p8;$fn f(in x, out y) {$int k = 65536 * 65536;$}|||f.in: InputMissing 0$|3
params p8;$fn f(in x, out y) {$for i in 0..131071 { y = 1; }$y = 2;$y = 3;$}|`4194305* `||f.in: InputLong$|3
params p9;fn f(){}|none||f.he:1:8: UnknownParams$|1
f(in x, out y) { y = x; }|none||f.in: read fault$|4
f(in a[8], out y) { y = a[8]; }|none||f.in: read fault$|4
none|x = 1||f.he: read fault$|4
none|none||f.he: read fault$|4
f(in x, in z, out y) { y = x*z + x; y = y*y; }|x = 20$z = 30$|y = 185$||0
f(in x, in z, out y) { y = x*z + x; y = y*y; }|x = 0$z = 256$|y = 0$||0
f(in x, out y) { y = x; }|x = 256$|y = 256$||0
f(in x) {}|x = 1$|||0
f() {}||||0
f(in x, in z, out y) { y = x*z + x; y = y*y; }|# values$ z = 030\r$$\tx=20|y = 185$||0
f(in a[8], in b[8], out s) { for i in 0..8 { s += a[i]*b[i]; } }|a = 1 2 3 4 5 6 7 8$b = 1 1 1 1 1 1 1 1|s = 36$||0
f(in x, out y[2], out z) { y[1] = x - 3; z = -x; }|x = 1|y = 0 255$z = 256$||0
f(in x, out y) { y = x ? x; }|||f.he:1:38: BadByte$|1
f(in x, out y) { y = x }|||f.he:1:38: Syntax$|1
params p9; fn f(in x, out y) { y = x; }|||f.he:1:8: UnknownParams$|1
f(in x, out y) { y = w; }|bad||f.he:1:36: UnknownName$|1
f(in x, out y) { secret x; }|||f.he:1:39: Redeclared$|1
f(in x[9], out y) {}|||f.he:1:22: Length$|1
params p8;$fn f(in a[8], out y) {$  for i in 0..9 { y +=  a[i]; } }|a = 1 1 1 1 1 1 1 1||f.he:3:25: IndexRange$|1
params p8;$fn f(in a[8], out y) {$  for i in 0..9 { y +=  a[i]; } }|a = 1 1 1 1 1 1 1||f.in:1: InputCount$|3
f(in x, out y) { y = x; }|x = 257$||f.in:1: InputValue$|3
f(in x, out y) { y = x; }|$x = 1$x = 1||f.in:3: InputName$|3
f(in x, in z) {}|x = 1||f.in: InputMissing 1$|3";

// Whether `plain` leaves what the row says.
fn holds(alloc: Global, row: &str) -> Result<bool, Fail> {
    let mut fields = row.split('|');
    let mut bench = Bench::new(alloc, 0, 0, 0)?;
    bench.put_field(alloc, "f.he", fields.next().ok_or("no source")?)?;
    bench.put_field(alloc, "f.in", fields.next().ok_or("no inputs")?)?;
    let printed = text_of(alloc, fields.next().ok_or("no text")?)?;
    let line = text_of(alloc, fields.next().ok_or("no line")?)?;
    let status = fields.next().ok_or("no status")?;
    bench.step(alloc, "plain f.he f.in")?;
    let want = format!(in alloc; "{status}|{line}|{printed}")?;
    Ok(bench.left(alloc)?.as_str() == want.as_str())
}

// The words, which call of the store and which of standard output fails (0 for none), the line on the error stream and
// the status, over a source and an input text that are there.
const WORDS: &str = "|0|0|usage: heco COMMAND WORDS$|2
plain|0|0|usage: heco COMMAND WORDS$|2
plain f.he|0|0|usage: heco COMMAND WORDS$|2
plain f.he f.in f.in|0|0|usage: heco COMMAND WORDS$|2
plain f.he f.he|0|0|usage: heco COMMAND WORDS$|2
show f.he f.in|0|0|usage: heco COMMAND WORDS$|2
plain no.he f.in|0|0|no.he: read fault$|4
plain f.he no.in|0|0|no.in: read fault$|4
plain f.he f.in|1|0|f.he: read fault$|4
plain f.he f.in|2|0|f.in: read fault$|4
plain f.he f.in|0|1|standard output: write fault$|4";

// The words over files that are there, where those calls fail: the first one of the error stream, or none for 0.
fn given(
    alloc: Global,
    words: &str,
    store_fails: u64,
    out_fails: u64,
    err_fails: u64,
) -> Result<String, Fail> {
    let mut bench = Bench::new(alloc, store_fails, out_fails, err_fails)?;
    bench.put_field(alloc, "f.he", "f(in x, out y) { y = x; }")?;
    bench.put_field(alloc, "f.in", "x = 1")?;
    bench.step(alloc, words)?;
    bench.left(alloc)
}

// Whether the words are answered as the row says, and a failing error stream changes nothing but the line.
fn answers(alloc: Global, row: &str) -> Result<bool, Fail> {
    let mut fields = row.split('|');
    let words = fields.next().ok_or("no words")?;
    let store_fails = fields.next().ok_or("no call")?.parse::<u64>()?;
    let out_fails = fields.next().ok_or("no call")?.parse::<u64>()?;
    let line = text_of(alloc, fields.next().ok_or("no line")?)?;
    let status = fields.next().ok_or("no status")?;
    let told = format!(in alloc; "{status}|{line}|")?;
    let silent = format!(in alloc; "{status}||")?;
    Ok(
        given(alloc, words, store_fails, out_fails, 0)?.as_str() == told.as_str()
            && given(alloc, words, store_fails, out_fails, 1)?.as_str() == silent.as_str(),
    )
}

#[test]
fn words_and_faults_have_their_answers(rt: HostRuntime) -> Result<(), Fail> {
    for row in WORDS.lines() {
        assert!(rt; answers(rt.alloc(), row)?, "{row}");
    }
    Ok(())
}

#[test]
fn each_row_leaves_what_it_says(rt: HostRuntime) -> Result<(), Fail> {
    for row in ROWS.lines() {
        assert!(rt; holds(rt.alloc(), row)?, "{row}");
    }
    Ok(())
}
