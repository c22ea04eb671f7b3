use crate::files::{circuit_of, file_of, is_written_again};
use heco_circuit::{Circuit, bounds, needs};
use std::alloc::Global;
use std::test::Fail;

// A file, and what is told of its circuit: its gates, the bounds of its wires, or the keys that it needs.
const ROWS: &str =
    "each gates Neg { a: 0 }; Add { a: 0, b: 2 }; Mul { a: 0, b: 1 }; Relin { a: 4 }; Scale { c: 200, a: 5 }; Shift { c: 256, a: 6 }; Turn { r: 7, a: 7 };
each bounds 4754; 4754; 4754; 9508; 97975829; 98691317; 5625405069; 5625405197; 5626120685;
dot bounds 4754; 4754; 97975829; 98691317; 99406805; 198098122; 198813610; 396911732; 397627220; 794538952;
dot keys relin; 1; 2; 4;
five keys none;
less gates Sub { a: 0, b: 1 };
less bounds 4754; 4754; 9508;
less keys none;
mixed bounds 4754; 4754; 97975829; 97980583; 98696071;
mixed keys relin;
weighs gates Weigh { v: 0, a: 0 };
weighs bounds 4754; 4825310;
weighs keys none;
plain bounds 4754; 97975829; 195951658; 196667146; 196671900;
plain keys relin;
zero gates Weigh { v: 1, a: 0 }; Weigh { v: 0, a: 1 };
zero bounds 4754; 0; 0;
idle gates Sub { a: 0, b: 1 };
idle bounds 4754; 4754; 9508;
wide bounds 4489284; 4025962955496;
copy gates";

fn gates_of(alloc: Global, c: &Circuit) -> Result<String, Fail> {
    let mut text = String::from_str(alloc, "gates")?;
    for gate in c.gates().as_slice() {
        text.push_str(format!(in alloc; " {gate:?};")?.as_str())?;
    }
    Ok(text)
}

fn bounds_of(alloc: Global, c: &Circuit) -> Result<String, Fail> {
    let mut text = String::from_str(alloc, "bounds")?;
    for bound in bounds(alloc, c)?.as_slice() {
        text.push_str(format!(in alloc; " {bound};")?.as_str())?;
    }
    Ok(text)
}

fn keys_of(alloc: Global, c: &Circuit) -> Result<String, Fail> {
    let needs = needs(alloc, c)?;
    let first = if needs.relin {
        "keys relin;"
    } else {
        "keys none;"
    };
    let mut text = String::from_str(alloc, first)?;
    for amount in needs.turns.as_slice() {
        text.push_str(format!(in alloc; " {amount};")?.as_str())?;
    }
    Ok(text)
}

fn told(alloc: Global, c: &Circuit, row: &str) -> Result<String, Fail> {
    if row.starts_with("gates") {
        gates_of(alloc, c)
    } else if row.starts_with("bounds") {
        bounds_of(alloc, c)
    } else {
        keys_of(alloc, c)
    }
}

fn holds(alloc: Global, row: &str) -> Result<bool, Fail> {
    let (name, wanted) = row.split_once(' ').ok_or("no file")?;
    let c = circuit_of(alloc, name)?;
    Ok(told(alloc, &c, wanted)?.as_str() == wanted)
}

#[test]
fn what_a_circuit_tells(rt: HostRuntime) -> Result<(), Fail> {
    for row in ROWS.lines() {
        assert!(rt; holds(rt.alloc(), row)?, "{row}");
    }
    Ok(())
}

fn is_kept(alloc: Global, name: &str) -> Result<bool, Fail> {
    let file = file_of(alloc, name)?;
    is_written_again(alloc, file.as_slice())
}

#[test]
fn each_file_is_written_again(rt: HostRuntime) -> Result<(), Fail> {
    for name in "dot copy five each less mixed weighs plain zero idle wide".split(' ') {
        assert!(rt; is_kept(rt.alloc(), name)?, "{name}");
    }
    Ok(())
}
