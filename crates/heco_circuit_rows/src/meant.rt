use crate::files::circuit_of;
use heco_circuit::Circuit;
use heco_meaning::meaning;
use heco_nums::{Inputs, List, Outputs};
use std::alloc::Global;
use std::test::Fail;

// A circuit, the slots of its inputs, and those of its outputs. The first is 8 + 14 + 18 + 20 + 20 + 18 + 14 + 8; in the
// second slot 2 of the products is 18, and 200 * 18 + 256 is 1 modulo 257, and 1 - 1 is 0; the last are 3 - 5, 5 - 3
// and 3 - 3 * 5 modulo 257, 2 * 4 and 3 * 5, 2 * 9 - 3, zeros, 3 - 5 beside a vector, and 65536 * 5 and 0 * 7 modulo 65537.
const ROWS: &str = "dot|1 2 3 4 5 6 7 8;8 7 6 5 4 3 2 1|120;
each|1 2 3 4 5 6 7 8;8 7 6 5 4 3 2 1|1 5;0;
less|3;5|255;
less|5;3|2;
mixed|3;5|245;
weighs|4 5|8 15;
plain|3|15;
zero|4 5|0 0;
idle|3;5|255;
wide|5 7|65532 0;";

fn numbers(alloc: Global, text: &str) -> Result<List<u32>, Fail> {
    let mut numbers = List::new(alloc);
    for word in text.split(' ') {
        numbers.push(word.parse::<u32>()?)?;
    }
    Ok(numbers)
}

fn inputs_of(alloc: Global, text: &str) -> Result<Inputs, Fail> {
    let mut rows = List::new(alloc);
    for row in text.split(';') {
        rows.push(numbers(alloc, row)?)?;
    }
    Ok(Inputs { rows })
}

// The numbers with spaces between, and a mark behind them.
fn put_row(alloc: Global, text: &mut String, row: &[u32]) -> Result<(), Fail> {
    let mut space = "";
    for number in row {
        text.push_str(format!(in alloc; "{space}{number}")?.as_str())?;
        space = " ";
    }
    Ok(text.push(';')?)
}

fn text_of(alloc: Global, outputs: &Outputs) -> Result<String, Fail> {
    let mut text = String::new(alloc);
    for row in outputs.rows.as_slice() {
        put_row(alloc, &mut text, row.as_slice())?;
    }
    Ok(text)
}

fn meant_by(alloc: Global, c: &Circuit, inputs: &str) -> Result<String, Fail> {
    let inputs = inputs_of(alloc, inputs)?;
    text_of(alloc, &meaning(alloc, c, &inputs)?)
}

fn meant(alloc: Global, name: &str, inputs: &str) -> Result<String, Fail> {
    let c = circuit_of(alloc, name)?;
    meant_by(alloc, &c, inputs)
}

fn holds(alloc: Global, row: &str) -> Result<bool, Fail> {
    let (name, rest) = row.split_once('|').ok_or("no inputs")?;
    let (inputs, wanted) = rest.split_once('|').ok_or("no outputs")?;
    Ok(meant(alloc, name, inputs)?.as_str() == wanted)
}

#[test]
fn what_each_circuit_means(rt: HostRuntime) -> Result<(), Fail> {
    for row in ROWS.lines() {
        assert!(rt; holds(rt.alloc(), row)?, "{row}");
    }
    Ok(())
}
