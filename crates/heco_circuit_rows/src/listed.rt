use crate::files::circuit_of;
use crate::named::shown;
use std::alloc::Global;
use std::test::Fail;

// A circuit, and its listing, with `$` for each line end.
const ROWS: &str =
    "dot params p8$in a[8]$in b[8]$2 Mul 0 1 : 97975829$3 Relin 2 : 98691317$4 Turn 1 3 : 99406805$5 Add 3 4 : 198098122$6 Turn 2 5 : 198813610$7 Add 5 6 : 396911732$8 Turn 4 7 : 397627220$9 Add 7 8 : 794538952$out s[1] = 9@0$
each params p8$in a[8]$in b[8]$2 Neg 0 : 4754$3 Add 0 2 : 9508$4 Mul 0 1 : 97975829$5 Relin 4 : 98691317$6 Scale 200 5 : 5625405069$7 Shift 256 6 : 5625405197$8 Turn 7 7 : 5626120685$out s[2] = 8@3 5$out u[1] = 3@0$
less params p8$in x[1]$in z[1]$2 Sub 0 1 : 9508$out y[1] = 2@0$
weighs params p8$in x[2]$vector 0 2 3 0 0 0 0 0 0$1 Weigh 0 0 : 4825310$out y[2] = 1@0 1@1$
zero params p8$in x[2]$vector 0 2 3 0 0 0 0 0 0$vector 1 0 0 0 0 0 0 0 0$1 Weigh 1 0 : 0$2 Weigh 0 1 : 0$out y[2] = 1@0 2@1$
idle params p8$in x[1]$in z[1]$vector 0 0 0 0 0 0 0 0 0$2 Sub 0 1 : 9508$out y[1] = 2@0$";

fn holds(alloc: Global, row: &str) -> Result<bool, Fail> {
    let (name, wanted) = row.split_once(' ').ok_or("no file")?;
    let c = circuit_of(alloc, name)?;
    Ok(shown(alloc, &c)?.as_slice() == wanted.as_bytes())
}

#[test]
fn each_circuit_is_shown(rt: HostRuntime) -> Result<(), Fail> {
    for row in ROWS.lines() {
        assert!(rt; holds(rt.alloc(), row)?, "{row}");
    }
    Ok(())
}
