use super::*;
use bumpalo::Bump;
use heco_ir::{Builder, NodeId, VNode, Vector};
use heco_nums::List;
use std::test::Fail;

#[test]
fn one_number_for_one_node(rt: HostRuntime) -> Result<(), Fail> {
    let mut set = Cons::open(rt.alloc());
    assert!(rt; set.is_empty());
    let first = set.put(VNode::Input { a: 0 })?;
    let again = set.put(VNode::Input { a: 0 })?;
    let other = set.put(VNode::Input { a: 1 })?;
    assert_eq!(rt; first, again);
    assert_eq!(rt; other.0, 1);
    assert_eq!(rt; set.len(), 2);
    assert_eq!(rt; set.get(other), VNode::Input { a: 1 });
    Ok(())
}

#[test]
fn a_node_that_no_root_uses_is_dropped(rt: HostRuntime) -> Result<(), Fail> {
    let (old, new) = (Bump::new(rt.alloc()), Bump::new(rt.alloc()));
    let mut nodes = Builder::<Vector>::open(&old);
    let v = nodes.push(VNode::Input { a: 0 })?;
    nodes.push(VNode::Input { a: 1 })?;
    let negated = nodes.push(VNode::Neg { v })?;
    let mut roots = List::new(rt.alloc());
    roots.push(negated)?;
    let ir = nodes.finish(roots);
    let used = drop_dead(rt.alloc(), &ir, &new)?;
    assert_eq!(rt; used.len(), 2);
    assert_eq!(rt; used.node(NodeId(1)), VNode::Neg { v });
    assert_eq!(rt; used.roots().as_slice(), [NodeId(1)].as_slice());
    Ok(())
}
