use heco_row_steps::Bench;
use std::alloc::Global;
use std::test::Fail;

// The source, the input text, and the status and line of `exec`, with the marks of `text_of`. `none` stands for a file
// that is absent. No file of material is there.
const ROWS: &str =
    "f(in x, out y) { y = x*x; y = y*y; y = y*y; y = y*y; }|none|1|f.he: TooDeep out 0 index 0 bound 863747166108134984309
f(in x, out y, out z[2]) { z[1] = x*x; z[1] *= z[1]; z[1] *= z[1]; z[1] *= z[1]; }|x = 257|1|f.he: TooDeep out 1 index 1 bound 863747166108134984309
params p8;$fn f(in a[8], out y) {$  for i in 0..9 { y += a[i]; }$}|a = 1|1|f.he:3:24: IndexRange
f(in a[8], out y) { y = a[8]; }|none|1|f.he:1:39: IndexRange
f(in a[8], in x, out y) { y = a[x]; }|none|1|f.he:1:47: SecretIndex
params p8;$fn f(in x, out y) {$  int k = x;$}|none|1|f.he:3:11: SecretToPublic
params p8;$fn f(in x, out y) {$int k = 65536 * 65536;$}|none|1|f.he:3:15: PublicRange
params p8;$fn f(in x, out y) {$y = `65*(`x`65*)`;$}|none|1|f.he:3:69: TooNested
params p8;|none|1|f.he:1:11: Syntax
params p8;@|none|1|f.he:1:11: BadByte
params p9;fn f(){}|none|1|f.he:1:8: UnknownParams
f(in x, out y) { y = x; }|x = 257|3|f.in:1: InputValue
f(in x, out y) { y = x; }||3|f.in: InputMissing 0
f(in x, out y) { y = x; }|x = 1$x = 2$|3|f.in:2: InputName
f(in x, out y) { y = x; }|x = 1 2|3|f.in:1: InputCount
f(in x, out y) { y = x; }|x 1|3|f.in:1: InputText
f(in x, out y) { y = x; }|x = 1\r|3|f.in:1: InputText
none|x = 1|4|f.he: read fault
f(in x, out y) { y = x; }|none|4|f.in: read fault
f(in x, out y) { y = x; }|x = 1|4|k: read fault";

// The same of texts that are too long, and of too many steps.
const LONG: &str = "`1048577* `|none|1|f.he: SourceLong
f(in x, out y) { y = x; }|`4194305* `|3|f.in: InputLong
params p8;$fn f(in x, out y) {$for i in 0..131071 { y = 1; }$y = 2;$y = 3;$}|none|1|f.he:5:1: TooLarge";

// Whether `exec` refuses as the row says, and leaves nothing.
fn holds(alloc: Global, row: &str) -> Result<bool, Fail> {
    let mut fields = row.split('|');
    let mut bench = Bench::new(alloc, 0, 0, 0)?;
    bench.put_field(alloc, "f.he", fields.next().ok_or("no source")?)?;
    bench.put_field(alloc, "f.in", fields.next().ok_or("no inputs")?)?;
    let status = fields.next().ok_or("no status")?;
    let line = fields.next().ok_or("no line")?;
    bench.steps(
        alloc,
        "exec f.he f.in k e c s v t r;absent c;absent s;absent v;absent t;absent r",
    )?;
    let want = format!(in alloc; "{status}|{line}\n|")?;
    Ok(bench.left(alloc)?.as_str() == want.as_str())
}

#[test]
fn each_refusal_has_its_line(rt: HostRuntime) -> Result<(), Fail> {
    for row in ROWS.lines() {
        assert!(rt; holds(rt.alloc(), row)?, "{row}");
    }
    Ok(())
}

#[test]
fn each_refusal_of_length_has_its_line(rt: HostRuntime) -> Result<(), Fail> {
    for row in LONG.lines() {
        assert!(rt; holds(rt.alloc(), row)?, "{row}");
    }
    Ok(())
}
