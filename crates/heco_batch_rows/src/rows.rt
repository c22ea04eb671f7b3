ghost use Rattle.heco_batch.specs.Plain.{ArePlain};

use crate::scalars::Scalars;
use bumpalo::Bump;
use heco_cse::drop_dead;
use heco_ir::{Home, Ir, NodeId, SNode, VNode, Vector};
use heco_nums::Preset;
use std::alloc::Global;
use std::test::Fail;

// Nodes, each an element of an input, or a product or a sum of nodes before it, by their numbers; the slot in which the
// last is to be found; and how many nodes are made, how many of them are used, and the gates of these. The first row is
// the dot product of eight, the second a[6] + a[7] + a[0].
const ROWS: &str =
    "e 0 0;e 1 0;* 0 1;e 0 1;e 1 1;* 3 4;+ 2 5;e 0 2;e 1 2;* 7 8;+ 6 9;e 0 3;e 1 3;* 11 12;+ 10 13;e 0 4;e 1 4;* 15 16;+ 14 17;e 0 5;e 1 5;* 19 20;+ 18 21;e 0 6;e 1 6;* 23 24;+ 22 25;e 0 7;e 1 7;* 27 28;+ 26 29|0|17 9 8
e 0 6;e 0 7;+ 0 1;e 0 0;+ 2 3|6|5 5 4";

fn node(kind: &str, first: u32, second: u32) -> SNode {
    let (x, y) = (NodeId(first), NodeId(second));
    match kind {
        "*" => SNode::Prod { x, y },
        "+" => SNode::Sum { x, y },
        _ => SNode::Elem {
            a: first,
            i: second,
        },
    }
}

fn node_of(text: &str) -> Result<SNode, Fail> {
    let mut words = text.split(' ');
    let kind = words.next().unwrap_or("no kind");
    let first = words.next().unwrap_or("no number").parse::<u32>()?;
    let second = words.next().unwrap_or("no number").parse::<u32>()?;
    Ok(node(kind, first, second))
}

// The last of the nodes.
fn pushed(s: &mut Scalars<'_>, nodes: &str) -> Result<NodeId, Fail>
    requires { ArePlain s.old.p.t s.old.p.slots s.old.count s.old.nodes }
    ensures { ArePlain s.new.p.t s.new.p.slots s.new.count s.new.nodes }
{
    let mut last = NodeId(0);
    for text in nodes.split(';') {
        last = s.push(node_of(text)?)?;
    }
    Ok(last)
}

/// How many gates the nodes make.
fn gates(ir: &Ir<'_, Vector>) -> u32 {
    let mut sum = 0u32;
    for i in 0..ir.len() {
        sum = sum.wrapping_add(match ir.node(NodeId(i)) {
            VNode::Input { .. } => 0,
            VNode::Mul { .. } => 2,
            _ => 1,
        });
    }
    sum
}

/// The nodes as batched, the nodes that are used, and their gates.
fn counts(alloc: Global, made: &Ir<'_, Vector>) -> Result<String, Fail> {
    let b = Bump::new(alloc);
    let used = drop_dead(alloc, made, &b)?;
    Ok(format!(in alloc; "{} {} {}", made.len(), used.len(), gates(&used))?)
}

fn is_at(homes: &[Home], wanted: &str) -> Result<bool, Fail> {
    let wanted = wanted.parse::<u16>()?;
    match homes {
        [Home::At { root, slot }] => Ok(*root == 0 && *slot == wanted),
        _ => Ok(false),
    }
}

fn holds(alloc: Global, p: Preset, row: &str) -> Result<bool, Fail> {
    let (nodes, rest) = row.split_once('|').ok_or("no slot")?;
    let (slot, wanted) = rest.split_once('|').ok_or("no counts")?;
    let (old, new) = (Bump::new(alloc), Bump::new(alloc));
    let mut scalars = Scalars::open(p, &old);
    let root = pushed(&mut scalars, nodes)?;
    let (made, homes) = scalars.batched(root, alloc, &new)?;
    Ok(is_at(homes.as_slice(), slot)? && counts(alloc, &made)?.as_str() == wanted)
}

#[test]
fn the_gates_are_the_cost(rt: HostRuntime) -> Result<(), Fail> {
    let p8 = Preset::by_id(1).ok_or("no preset")?;
    for row in ROWS.lines() {
        assert!(rt; holds(rt.alloc(), p8, row)?, "{row}");
    }
    Ok(())
}
