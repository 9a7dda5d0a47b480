// The pair planner: the two-way tree, in which left is the first child and right the next sibling. The remainders of
// all nodes are weighed from the last to the first; then each node, from the first on, gives its first child and its
// next sibling their marks.
ghost use Rattle.std.specs.Prelude.{◌≡◌, ◌≤◌, length};
ghost use Rattle.model.specs.Table.{node_count, limit_of, tree_of};
ghost use Rattle.model.specs.Steps.{pair_marks};
ghost use Rattle.greedy.specs.PairMarks.{Rests, put, laid_below, PairReady};

use crate::kept::Kept;
use crate::sides::Sides;
use table::Tree;
use words::read::{first_at, next_at, node_count};

// The remainders of all nodes.
fn weigh_nodes(tree: Tree, scratch: &mut [u32])
    requires { node_count tree.table.now ≤ length scratch.old }
    ensures { Rests tree.entry.table.now scratch.new 0 }
{
    for v in (1..=node_count(tree.table)).rev() {
        let sides = Sides::at_node(Kept { tree, scratch }, v);
        scratch[(v as usize) - 1] = sides.remainder();
    }
}

// A mark for node v, where there is one.
#[tactic(auto, unfolding(crate::specs::PairMarks::put))]
fn put_mark(marks: &mut [u8], v: u16, mark: u8)
    requires { v ≤ length marks.old }
    ensures { marks.new ≡ put marks.old v mark }
{
    if let Some(i) = v.checked_sub(1) {
        marks[i as usize] = mark;
    }
}

// Node v gives its first child and its next sibling their marks. A cut node begins a run; a child that is uncut gets 0,
// and so does a sibling after a node with 0.
#[tactic(auto, using(crate::proofs::TwoWay::first_node, crate::proofs::TwoWay::next_node))]
fn lay_below(kept: Kept, marks: &mut [u8], v: u16)
    requires { PairReady kept.tree.table.now kept.scratch.now v × (length marks.old ≡ node_count kept.tree.table.now) }
    ensures { marks.new ≡ laid_below kept.entry.tree.table.now marks.old v }
{
    let table = kept.tree.table;
    let sides = Sides::at_node(kept, v);
    let mark = marks[(v as usize) - 1];
    let uncut = if mark == 0 { 0 } else { 2 };
    let first = if sides.cuts_left() { 1 } else { 0 };
    let next = if sides.cuts_right() { 1 } else { uncut };
    put_mark(marks, first_at(table, v), first);
    put_mark(marks, next_at(table, v), next);
}

// The marks of all nodes.
#[tactic(auto, using(crate::proofs::TwoWay::links_step, crate::proofs::TwoWay::links_end))]
fn lay_marks(kept: Kept, marks: &mut [u8])
    requires { Rests kept.tree.table.now kept.scratch.now 0 × (length marks.old ≡ node_count kept.tree.table.now) }
    ensures { marks.new ≡ pair_marks (limit_of kept.entry.tree.table.now) (tree_of kept.entry.tree.table.now) }
{
    marks[0] = 1;
    for v in 1..=node_count(kept.tree.table) {
        lay_below(kept, marks, v);
    }
}

// The plan of an accepted tree.
pub fn lay_pair(tree: Tree, marks: &mut [u8], scratch: &mut [u32])
    requires { (length marks.old ≡ node_count tree.table.now)
        × (node_count tree.table.now ≤ length scratch.old) }
    ensures { marks.new ≡ pair_marks (limit_of tree.entry.table.now) (tree_of tree.entry.table.now) }
{
    weigh_nodes(tree, scratch);
    lay_marks(Kept { tree, scratch }, marks);
}
