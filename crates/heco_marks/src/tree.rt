//! A complete binary tree of counts in one list: node 1 is the root, nodes 2i and 2i + 1 stand below node i, and
//! the leaves come last, one for each number.

ghost use Rattle.std.specs.Prelude.{◌≡◌, ◌+◌, ◌*◌, ◌^◌, ◌<◌, ◌≤◌, ℕ, Bool, length, replicate, slice_index};
ghost use Rattle.heco_marks.specs.Trees.{AreLeaves, IsTree, IsTreeBut, SameLeaves};
ghost use Rattle.heco_marks.specs.Marks.{flag_at};

/// The least power of two that is `count` or more.
pub fn leaves_for(count: usize) -> usize
    requires { count ≤ 2 ^ 28 }
    ensures power { (h : ℕ) × (result ≡ 2 ^ h) }
    ensures enough { count ≤ result }
    ensures few { result ≤ 2 ^ 28 }
{
    let mut leaves = 1;
    while leaves < count {
        leaves *= 2;
    }
    leaves
}

/// Sums again from this node up to the root.
pub fn mend(counts: &mut Vec<u32>, from: usize)
    requires { (leaves : ℕ) × IsTreeBut leaves counts.old.items from }
    ensures { (leaves : ℕ) → IsTreeBut leaves counts.old.items from → IsTree leaves counts.new.items × SameLeaves leaves counts.old.items counts.new.items }
{
    let mut node = from;
    while node > 0 {
        counts[node] = counts[2 * node] + counts[2 * node + 1];
        node /= 2;
    }
}

/// Sets the leaf of each flag that is set.
pub fn set_leaves(counts: &mut Vec<u32>, leaves: usize, flags: &[bool])
    requires none { counts.old.items ≡ replicate (2 * leaves) 0 }
    requires room { length flags.now ≤ leaves }
    requires few { leaves ≤ 2 ^ 28 }
    ensures { AreLeaves leaves (flag_at flags.now) counts.new.items }
{
    for number in 0..flags.len() {
        if flags[number] {
            counts[leaves + number] = 1;
        }
    }
}

/// Sums all nodes, from the last one above the leaves up to the root.
pub fn sum_up(counts: &mut Vec<u32>, leaves: usize)
    requires power { (h : ℕ) × (leaves ≡ 2 ^ h) }
    requires few { leaves ≤ 2 ^ 28 }
    requires leaves { (flag : ℕ → Bool) × AreLeaves leaves flag counts.old.items }
    ensures tree { IsTree leaves counts.new.items }
    ensures same { SameLeaves leaves counts.old.items counts.new.items }
{
    let mut node = leaves;
    while node > 1 {
        node -= 1;
        counts[node] = counts[2 * node] + counts[2 * node + 1];
    }
}
