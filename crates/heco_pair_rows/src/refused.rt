use heco_row_steps::Bench;
use std::alloc::Global;
use std::test::Fail;

// The source, both input texts, and the status and line of `pair`, with the marks of `text_of`. `none` stands for a file
// that is absent. No file of material is there.
const ROWS: &str =
    "f(in x, out y) { y = x*x; y = y*y; y = y*y; y = y*y; }|none|none|1|f.he: TooDeep out 0 index 0 bound 863747166108134984309
f(in a[8], out y) { y = a[8]; }|none|none|1|f.he:1:39: IndexRange
params p8;|none|none|1|f.he:1:11: Syntax
f(in x, out y) { y = x; }|x = 1|x = 257|3|f.in2:1: InputValue
f(in x, out y) { y = x; }|x = 1||3|f.in2: InputMissing 0
f(in x, in z, out y) { y = x; }|x = 1$z = 2|x = 1|3|f.in2: InputMissing 1
f(in x, out y) { y = x; }|x = 1|x = 1$x = 2$|3|f.in2:2: InputName
f(in x, out y) { y = x; }|x = 1|# x$x = 1 2|3|f.in2:2: InputCount
f(in x, out y) { y = x; }|x = 1|x 1|3|f.in2:1: InputText
f(in x, out y) { y = x; }|x = 1|x = 1\r|3|f.in2:1: InputText
f(in x, out y) { y = x; }|x = 257|x 1|3|f.in:1: InputValue
f(in x, out y) { y = x; }||x 1|3|f.in: InputMissing 0
f(in x, out y) { y = x; }|x 1|none|3|f.in:1: InputText
none|x = 1|x = 1|4|f.he: read fault
f(in x, out y) { y = x; }|none|x 1|4|f.in: read fault
f(in x, out y) { y = x; }|x = 1|none|4|f.in2: read fault
f(in x, out y) { y = x; }|x = 1|x = 2|4|k: read fault";

// The same of a text that is too long.
const LONG: &str = "f(in x, out y) { y = x; }|x = 1|`4194305* `|3|f.in2: InputLong";

// Whether `pair` refuses as the row says, and leaves nothing.
fn holds(alloc: Global, row: &str) -> Result<bool, Fail> {
    let mut fields = row.split('|');
    let mut bench = Bench::new(alloc, 0, 0, 0)?;
    bench.put_field(alloc, "f.he", fields.next().ok_or("no source")?)?;
    bench.put_field(alloc, "f.in", fields.next().ok_or("no inputs")?)?;
    bench.put_field(alloc, "f.in2", fields.next().ok_or("no second inputs")?)?;
    let status = fields.next().ok_or("no status")?;
    let line = fields.next().ok_or("no line")?;
    bench.steps(
        alloc,
        "pair f.he f.in f.in2 k e c s v t r;absent c;absent s;absent v;absent t;absent r",
    )?;
    let want = format!(in alloc; "{status}|{line}\n|")?;
    Ok(bench.left(alloc)?.as_str() == want.as_str())
}

#[test]
fn each_refusal_has_its_line(rt: HostRuntime) -> Result<(), Fail> {
    for row in ROWS.lines() {
        assert!(rt; holds(rt.alloc(), row)?, "{row}");
    }
    Ok(())
}

#[test]
fn a_refusal_of_length_has_its_line(rt: HostRuntime) -> Result<(), Fail> {
    assert!(rt; holds(rt.alloc(), LONG)?);
    Ok(())
}
