use crate::files::circuit_of;
use crate::passes::passes_of;
use heco_circuit::{Circuit, write};
use heco_circuit_rows::{shown, wanted};
use heco_peep::{Pass, run_passes};
use std::alloc::Global;
use std::cell::Cell;
use std::rc::Rc;
use std::test::Fail;

// The longest file whose circuit passes are handed.
const LONGEST: usize = 268435455;

// A circuit, the letters of the passes, its listing, that of what comes of it, with `$` for each line end, or that it stays the
// same, and how many windows the counting pass sees.
const ROWS: &str =
    "difference|SNM|params p8$in x[1]$in z[1]$2 Neg 1 : 4754$3 Add 0 2 : 9508$out y[1] = 3@0$|params p8$in x[1]$in z[1]$2 Sub 0 1 : 9508$out y[1] = 2@0$|0
difference|C|params p8$in x[1]$in z[1]$2 Neg 1 : 4754$3 Add 0 2 : 9508$out y[1] = 3@0$|same|2
six|SNM|params p8$in x[1]$1 Scale 3 0 : 14262$2 Scale 2 1 : 28524$out y[1] = 2@0$|params p8$in x[1]$1 Scale 6 0 : 28524$out y[1] = 1@0$|0
six|CM|params p8$in x[1]$1 Scale 3 0 : 14262$2 Scale 2 1 : 28524$out y[1] = 2@0$|params p8$in x[1]$1 Scale 6 0 : 28524$out y[1] = 1@0$|2
distance|SNM|params p8$in a[8]$in b[8]$2 Neg 1 : 4754$3 Add 0 2 : 9508$4 Mul 3 3 : 195946261$5 Relin 4 : 196661749$6 Turn 4 5 : 197377237$7 Add 5 6 : 394038986$8 Turn 2 7 : 394754474$9 Add 7 8 : 788793460$10 Turn 1 9 : 789508948$11 Add 9 10 : 1578302408$out y[1] = 11@0$|params p8$in a[8]$in b[8]$2 Sub 0 1 : 9508$3 Mul 2 2 : 195946261$4 Relin 3 : 196661749$5 Turn 4 4 : 197377237$6 Add 4 5 : 394038986$7 Turn 2 6 : 394754474$8 Add 6 7 : 788793460$9 Turn 1 8 : 789508948$10 Add 8 9 : 1578302408$out y[1] = 10@0$|0
distance|C|params p8$in a[8]$in b[8]$2 Neg 1 : 4754$3 Add 0 2 : 9508$4 Mul 3 3 : 195946261$5 Relin 4 : 196661749$6 Turn 4 5 : 197377237$7 Add 5 6 : 394038986$8 Turn 2 7 : 394754474$9 Add 7 8 : 788793460$10 Turn 1 9 : 789508948$11 Add 9 10 : 1578302408$out y[1] = 11@0$|same|5
negatives|SNM|params p8$in x[1]$1 Neg 0 : 4754$2 Neg 1 : 4754$out y[1] = 2@0$|params p8$in x[1]$out y[1] = 0@0$|0
dead|C|params p8$in x[1]$1 Neg 0 : 4754$2 Shift 1 0 : 4882$out y[1] = 2@0$|params p8$in x[1]$1 Shift 1 0 : 4882$out y[1] = 1@0$|2
dead||params p8$in x[1]$1 Neg 0 : 4754$2 Shift 1 0 : 4882$out y[1] = 2@0$|same|0
deadturn|C|params p8$in x[1]$1 Turn 1 0 : 720242$2 Neg 0 : 4754$out y[1] = 2@0$|same|1
once|L|params p8$in x[1]$1 Scale 1 0 : 4754$out y[1] = 1@0$|same|0
product|R|params p8$in x[1]$1 Mul 0 0 : 97975829$2 Relin 1 : 98691317$3 Neg 2 : 98691317$out y[1] = 3@0$|same|0
order|SNM|params p8$in x[1]$in z[1]$2 Neg 1 : 4754$3 Neg 2 : 4754$4 Add 0 3 : 9508$out y[1] = 4@0$|params p8$in x[1]$in z[1]$2 Neg 1 : 4754$3 Sub 0 2 : 9508$out y[1] = 3@0$|0
order|NSM|params p8$in x[1]$in z[1]$2 Neg 1 : 4754$3 Neg 2 : 4754$4 Add 0 3 : 9508$out y[1] = 4@0$|params p8$in x[1]$in z[1]$2 Add 0 1 : 9508$out y[1] = 2@0$|0
chain|N|params p8$in x[1]$1 Neg 0 : 4754$2 Neg 1 : 4754$3 Neg 2 : 4754$out y[1] = 3@0$|params p8$in x[1]$1 Neg 0 : 4754$out y[1] = 1@0$|0
cells|N|params p8$in x[1]$1 Neg 0 : 4754$2 Neg 1 : 4754$3 Shift 5 2 : 4882$out y[3] = 2@0 7 3@0$|params p8$in x[1]$1 Shift 5 0 : 4882$out y[3] = 0@0 7 1@0$|0";

fn run(alloc: Global, c: Circuit, passes: &mut Vec<Box<dyn Pass>>) -> Result<Circuit, Fail> {
    let file = write(alloc, &c)?;
    if file.len() <= LONGEST {
        Ok(run_passes(alloc, c, passes)?)
    } else {
        Err("too long".into())
    }
}

// What comes of a circuit by the passes of these letters, and the number of windows that the counting one saw.
fn passed(alloc: Global, name: &str, letters: &str) -> Result<(Circuit, u32), Fail> {
    let c = circuit_of(alloc, name)?;
    let looks = Rc::new(alloc, Cell::new(0))?;
    let mut passes = passes_of(alloc, letters, &looks)?;
    let d = run(alloc, c, &mut passes)?;
    Ok((d, looks.get()))
}

// The name with the letters, the listings, and the number of windows.
fn parts(row: &str) -> Result<(&str, &str, &str), Fail> {
    let (name, rest) = row.split_once('|').ok_or("no name")?;
    let (letters, texts) = rest.split_once('|').ok_or("no passes")?;
    Ok((name, letters, texts))
}

fn texts_of(texts: &str) -> Result<(&str, &str, u32), Fail> {
    let (before, rest) = texts.split_once('|').ok_or("no listing")?;
    let (after, count) = rest.split_once('|').ok_or("no count")?;
    Ok((before, wanted(before, after), count.parse()?))
}

fn is_shown(alloc: Global, row: &str) -> Result<bool, Fail> {
    let (name, _, texts) = parts(row)?;
    let (before, _, _) = texts_of(texts)?;
    let c = circuit_of(alloc, name)?;
    Ok(shown(alloc, &c)?.as_slice() == before.as_bytes())
}

fn is_passed(alloc: Global, row: &str) -> Result<bool, Fail> {
    let (name, letters, texts) = parts(row)?;
    let (_, after, count) = texts_of(texts)?;
    let (d, looks) = passed(alloc, name, letters)?;
    Ok(looks == count && shown(alloc, &d)?.as_slice() == after.as_bytes())
}

#[test]
fn each_circuit_is_shown(rt: HostRuntime) -> Result<(), Fail> {
    for row in ROWS.lines() {
        assert!(rt; is_shown(rt.alloc(), row)?, "{row}");
    }
    Ok(())
}

#[test]
fn what_comes_of_each_circuit(rt: HostRuntime) -> Result<(), Fail> {
    for row in ROWS.lines() {
        assert!(rt; is_passed(rt.alloc(), row)?, "{row}");
    }
    Ok(())
}

#[test]
fn a_difference_is_a_file_of_51_bytes(rt: HostRuntime) -> Result<(), Fail> {
    let (d, _) = passed(rt.alloc(), "difference", "SNM")?;
    let wanted = hex::decode(
        rt.alloc(),
        "484349520201000200000001780001000000017a00010000000103000000000000000100010000000179000101000000020000",
    )?;
    assert_eq!(rt; wanted.len(), 51);
    assert!(rt; write(rt.alloc(), &d)?.as_slice() == wanted.as_slice());
    Ok(())
}
