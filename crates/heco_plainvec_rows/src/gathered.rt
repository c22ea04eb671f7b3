use crate::files::{circuit_of, gathered};
use heco_circuit_rows::{shown, wanted};
use std::alloc::Global;
use std::test::Fail;

// A circuit, its listing, and that of the circuit gathered, with `$` for each line end; or that it stays the same.
const ROWS: &str =
    "two|params p8$in x[2]$1 Scale 2 0 : 9508$2 Scale 3 0 : 14262$out y[2] = 1@0 2@1$|params p8$in x[2]$vector 0 2 3 0 0 0 0 0 0$1 Weigh 0 0 : 4825310$out y[2] = 1@0 1@1$
sum|params p8$in x[2]$1 Scale 2 0 : 9508$2 Scale 3 0 : 14262$3 Turn 1 2 : 729750$4 Add 1 3 : 739258$out y[1] = 4@0$|same
turned|params p8$in x[2]$1 Scale 2 0 : 9508$2 Scale 3 0 : 14262$3 Turn 1 2 : 729750$out y[3] = 1@0 2@1 3@0$|same
some|params p8$in x[2]$1 Scale 2 0 : 9508$2 Scale 4 0 : 19016$3 Scale 3 0 : 14262$4 Neg 2 : 19016$out y[4] = 1@0 3@1 4@1 2@0$|params p8$in x[2]$vector 0 2 3 0 0 0 0 0 0$1 Weigh 0 0 : 4825310$2 Scale 4 0 : 19016$3 Neg 2 : 19016$out y[4] = 1@0 1@1 3@1 2@0$
clash|params p8$in x[2]$1 Scale 2 0 : 9508$2 Scale 3 0 : 14262$out y[2] = 1@0 2@0$|same
equal|params p8$in x[2]$1 Scale 5 0 : 23770$2 Scale 5 0 : 23770$out y[4] = 1@0 2@0 7 2@0$|params p8$in x[2]$vector 0 5 0 0 0 0 0 0 0$1 Weigh 0 0 : 4159750$out y[4] = 1@0 1@0 7 1@0$
one|params p8$in x[2]$1 Scale 2 0 : 9508$out y[2] = 1@0 1@1$|same
pairs|params p8$in x[2]$in z[2]$2 Scale 2 1 : 9508$3 Scale 2 0 : 9508$4 Scale 3 0 : 14262$5 Sub 0 1 : 9508$6 Scale 3 1 : 14262$out y[3] = 2@0 4@1 3@7$out w[3] = 6@1 5@0 4$|params p8$in x[2]$in z[2]$vector 0 0 3 0 0 0 0 0 2$vector 1 2 3 0 0 0 0 0 0$2 Weigh 1 1 : 4825310$3 Weigh 0 0 : 4349910$4 Sub 0 1 : 9508$out y[3] = 2@0 3@1 3@7$out w[3] = 2@1 4@0 4$
loud|params p8$in x[2]$1 Mul 0 0 : 97975829$2 Relin 1 : 98691317$3 Mul 2 2 : 2033830666133$4 Relin 3 : 2033831381621$5 Mul 4 4 : 41913197112450965$6 Relin 5 : 41913197113166453$7 Scale 2 6 : 83826394226332906$8 Scale 3 6 : 125739591339499359$out y[2] = 7@0 8@1$|same
calm|params p8$in x[2]$1 Mul 0 0 : 97975829$2 Relin 1 : 98691317$3 Mul 2 2 : 2033830666133$4 Relin 3 : 2033831381621$5 Scale 2 4 : 4067662763242$6 Scale 3 4 : 6101494144863$out y[2] = 5@0 6@1$|params p8$in x[2]$vector 0 2 3 0 0 0 0 0 0$1 Mul 0 0 : 97975829$2 Relin 1 : 98691317$3 Mul 2 2 : 2033830666133$4 Relin 3 : 2033831381621$5 Weigh 0 4 : 2064338852345315$out y[2] = 5@0 5@1$
weighed|params p8$in x[2]$vector 0 7 0 0 0 0 0 0 0$1 Weigh 0 0 : 3598778$2 Scale 2 1 : 7197556$3 Scale 3 1 : 10796334$4 Scale 4 0 : 19016$out y[3] = 2@0 3@1 4@0$|params p8$in x[2]$vector 0 7 0 0 0 0 0 0 0$vector 1 2 3 0 0 0 0 0 0$1 Weigh 0 0 : 3598778$2 Weigh 1 1 : 3652759670$3 Scale 4 0 : 19016$out y[3] = 2@0 2@1 3@0$
unread|params p8$in x[2]$1 Scale 2 0 : 9508$2 Scale 3 0 : 14262$out y[1] = 1@1$|params p8$in x[2]$vector 0 0 2 0 0 0 0 0 0$1 Weigh 0 0 : 4231060$out y[1] = 1@1$
idle|params p8$in x[1]$1 Scale 2 0 : 9508$2 Scale 3 0 : 14262$out y[1] = 0@0$|params p8$in x[1]$vector 0 0 0 0 0 0 0 0 0$1 Weigh 0 0 : 0$out y[1] = 0@0$";

fn shown_first(alloc: Global, name: &str) -> Result<Vec<u8>, Fail> {
    let c = circuit_of(alloc, name)?;
    shown(alloc, &c)
}

fn shown_gathered(alloc: Global, name: &str) -> Result<Vec<u8>, Fail> {
    let c = circuit_of(alloc, name)?;
    let d = gathered(alloc, c)?;
    shown(alloc, &d)
}

// Gathered once more.
fn shown_again(alloc: Global, name: &str) -> Result<Vec<u8>, Fail> {
    let c = circuit_of(alloc, name)?;
    let d = gathered(alloc, c)?;
    let e = gathered(alloc, d)?;
    shown(alloc, &e)
}

// The name, the listing before and the listing after.
fn parts(row: &str) -> Result<(&str, &str, &str), Fail> {
    let (name, rest) = row.split_once('|').ok_or("no name")?;
    let (before, after) = rest.split_once('|').ok_or("no listing")?;
    Ok((name, before, wanted(before, after)))
}

fn is_shown(alloc: Global, row: &str) -> Result<bool, Fail> {
    let (name, before, _) = parts(row)?;
    Ok(shown_first(alloc, name)?.as_slice() == before.as_bytes())
}

fn is_gathered(alloc: Global, row: &str) -> Result<bool, Fail> {
    let (name, _, after) = parts(row)?;
    Ok(shown_gathered(alloc, name)?.as_slice() == after.as_bytes())
}

fn stays_gathered(alloc: Global, row: &str) -> Result<bool, Fail> {
    let (name, _, after) = parts(row)?;
    Ok(shown_again(alloc, name)?.as_slice() == after.as_bytes())
}

#[test]
fn each_circuit_is_shown(rt: HostRuntime) -> Result<(), Fail> {
    for row in ROWS.lines() {
        assert!(rt; is_shown(rt.alloc(), row)?, "{row}");
    }
    Ok(())
}

#[test]
fn what_each_circuit_is_gathered(rt: HostRuntime) -> Result<(), Fail> {
    for row in ROWS.lines() {
        assert!(rt; is_gathered(rt.alloc(), row)?, "{row}");
    }
    Ok(())
}

#[test]
fn a_gathered_circuit_stays_the_same(rt: HostRuntime) -> Result<(), Fail> {
    for row in ROWS.lines() {
        assert!(rt; stays_gathered(rt.alloc(), row)?, "{row}");
    }
    Ok(())
}
