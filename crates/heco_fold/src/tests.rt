use super::*;
use heco_cse::Cons;
use heco_ir::VNode;
use std::test::Fail;

#[test]
fn a_fold_of_seven_adds_eight_nodes(rt: HostRuntime) -> Result<(), Fail> {
    let mut set = Cons::open(rt.alloc());
    let v = set.put(VNode::Input { a: 0 })?;
    let folded = fold_run(&mut set, v, 7)?;
    assert_eq!(rt; set.len(), 9);
    assert_eq!(rt; folded.0, 8);
    assert_eq!(rt; fold_run(&mut set, v, 7)?, folded);
    assert_eq!(rt; set.len(), 9);
    Ok(())
}
