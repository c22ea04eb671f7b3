use super::*;
use bumpalo::Bump;
use heco_nums::{List, Memory};
use std::test::Fail;

/// Answers each node itself, and counts its calls.
#[derive(Drop)]
struct Same {
    calls: u32,
}

impl<D: Dialect> Rewrite<D> for Same {
    #[tactic(auto, using(crate::proofs::Means::pushed_means))]
    fn rewrite(&mut self, n: D::Node, out: &mut Builder<'_, D>) -> Result<NodeId, Memory> {
        self.calls = self.calls.wrapping_add(1);
        out.push(n)
    }
}

#[test]
fn a_pass_calls_once_for_each_scalar_node(rt: HostRuntime) -> Result<(), Fail> {
    let (old, new) = (Bump::new(rt.alloc()), Bump::new(rt.alloc()));
    let mut nodes = Builder::<Scalar>::open(&old);
    let x = nodes.push(SNode::Elem { a: 0, i: 1 })?;
    let y = nodes.push(SNode::Neg { x })?;
    let mut roots = List::new(rt.alloc());
    roots.push(y)?;
    let ir = nodes.finish(roots);
    let mut same = Same { calls: 0 };
    let made = run_pass(rt.alloc(), &ir, &new, &mut same)?;
    assert_eq!(rt; same.calls, 2);
    assert_eq!(rt; made.len(), 2);
    assert_eq!(rt; made.node(NodeId(1)), SNode::Neg { x });
    assert_eq!(rt; made.roots().as_slice(), [NodeId(1)].as_slice());
    Ok(())
}

#[test]
fn a_pass_calls_once_for_each_vector_node(rt: HostRuntime) -> Result<(), Fail> {
    let (old, new) = (Bump::new(rt.alloc()), Bump::new(rt.alloc()));
    let mut nodes = Builder::<Vector>::open(&old);
    let v = nodes.push(VNode::Input { a: 3 })?;
    let mut roots = List::new(rt.alloc());
    roots.push(v)?;
    let ir = nodes.finish(roots);
    let mut same = Same { calls: 0 };
    let made = run_pass(rt.alloc(), &ir, &new, &mut same)?;
    assert_eq!(rt; same.calls, 1);
    assert_eq!(rt; made.len(), 1);
    assert_eq!(rt; made.node(NodeId(0)), VNode::Input { a: 3 });
    Ok(())
}
