use heco_draw::draw_values;
use heco_nums::Preset;
use heco_row_steps::Bench;
use std::alloc::Global;
use std::cell::Cell;
use std::rc::Rc;
use std::test::Fail;

// The source that `sample` takes.
const SOURCE: &str =
    "params q512;$fn dot(in a[512], in b[512], out s) { for i in 0..512 { s += a[i]*b[i]; } }$";

// What the steps print.
fn printed(alloc: Global, bench: &mut Bench, steps: &str) -> Result<String, Fail> {
    bench.steps(alloc, steps)?;
    let left = bench.left(alloc)?;
    let text = left.as_str().strip_prefix("0||").ok_or("not done")?;
    Ok(String::from_str(alloc, text)?)
}

fn sampled(alloc: Global, steps: &str) -> Result<String, Fail> {
    let mut bench = Bench::new(alloc, 0, 0, 0)?;
    printed(alloc, &mut bench, steps)
}

// The line of an input, with these values.
fn put_input(text: &mut String, alloc: Global, name: &str, values: &[u32]) -> Result<(), Fail> {
    text.push_str(name)?;
    text.push_str(" =")?;
    for value in values {
        text.push_str(format!(in alloc; " {value}")?.as_str())?;
    }
    text.push_str("\n")?;
    Ok(())
}

// The values that the seed 7 draws, as a text of inputs.
fn drawn_inputs(alloc: Global) -> Result<String, Fail> {
    let preset = Preset::by_id(5).ok_or("no preset")?;
    let values = draw_values(alloc, &preset, 7, 1024)?;
    let mut halves = values.as_slice().chunks(512);
    let a = halves.next().ok_or("no values")?;
    let b = halves.next().ok_or("few values")?;
    let mut text = String::new(alloc);
    put_input(&mut text, alloc, "a", a)?;
    put_input(&mut text, alloc, "b", b)?;
    Ok(text)
}

// The number of a line, behind its label.
fn number_of(line: Option<&str>, label: &str) -> Result<u128, Fail> {
    let number = line.ok_or("no line")?.strip_prefix(label);
    Ok(number.ok_or("another line")?.parse::<u128>()?)
}

// What `exec` prints on the inputs and the material that the seed 7 draws.
fn by_exec(alloc: Global) -> Result<String, Fail> {
    let mut bench = Bench::new(alloc, 0, 0, 0)?;
    bench.put_field(alloc, "f.he", SOURCE)?;
    bench.put("f.in", drawn_inputs(alloc)?.as_str().as_bytes())?;
    let steps = "compile f.he c0;draw c0 7 k e;exec f.he f.in k e c s v t r";
    printed(alloc, &mut bench, steps)
}

// The sum of the products of the drawn words was computed outside.
#[test]
fn exec_prints_the_sum_of_the_drawn_values(rt: HostRuntime) -> Result<(), Fail> {
    assert_eq!(rt; by_exec(rt.alloc())?.as_str(), "s = 36450\n");
    Ok(())
}

// Whether they are the five lines of the seed 7, with no more gates and no greater bound than a sum by halves has.
fn are_of_seven(text: &str) -> Result<bool, Fail> {
    let mut lines = text.lines();
    let head = lines.next() == Some("dot of 512, seed 7");
    let gates = number_of(lines.next(), "gates ")?;
    let bound = number_of(lines.next(), "bound ")?;
    let plain = lines.next() == Some("plain s = 36450");
    let decrypted = lines.next() == Some("heco s = 36450");
    let within = gates <= 20 && bound <= 106_970_622_267_936_256;
    Ok(head && within && plain && decrypted && lines.next().is_none())
}

#[test]
fn the_lines_are_those_of_exec(rt: HostRuntime) -> Result<(), Fail> {
    assert!(rt; are_of_seven(sampled(rt.alloc(), "sample 7")?.as_str())?);
    Ok(())
}

#[test]
fn zeros_before_a_seed_change_nothing(rt: HostRuntime) -> Result<(), Fail> {
    let alloc = rt.alloc();
    let once = sampled(alloc, "sample 7")?;
    let text = sampled(alloc, "sample 7;sample 7;picker last;sample 007")?;
    assert!(rt; text.as_str() == format!(in alloc; "{once}{once}{once}")?.as_str());
    Ok(())
}

#[test]
fn the_greatest_seed_is_taken(rt: HostRuntime) -> Result<(), Fail> {
    let text = sampled(rt.alloc(), "sample 18446744073709551615")?;
    assert!(rt;
        text.as_str()
            .starts_with("dot of 512, seed 18446744073709551615\n")
    );
    Ok(())
}

#[test]
fn the_picker_is_asked_twice_for_each_gate(rt: HostRuntime) -> Result<(), Fail> {
    let alloc = rt.alloc();
    let calls = Rc::new(alloc, Cell::new(0))?;
    let mut bench = Bench::new(alloc, 0, 0, 0)?;
    bench.counted(alloc, "sample 7", Rc::clone(&calls)?)?;
    let text = bench.left(alloc)?;
    let gates = number_of(text.as_str().lines().nth(1), "gates ")?;
    assert!(rt; gates.checked_mul(2) == Some(u128::from(calls.get())));
    Ok(())
}
