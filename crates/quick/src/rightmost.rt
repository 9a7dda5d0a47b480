// The rightmost planner: nodes from the last to the first, each with its children cut in runs, from the last child
// back, until the node and what stays of them are within the limit.
ghost use Rattle.std.specs.Prelude.{◌≡◌, ◌-◌, ◌≤◌, get_or, length};
ghost use Rattle.model.specs.Table.{node_count, limit_of, tree_of, first_at};
ghost use Rattle.model.specs.Steps.{rightmost_marks};
ghost use Rattle.quick.specs.Rightmost.{CutReady, CutDone, Settled, last_kid};

use table::links::link_before;
use table::{SLOTS, Tree};
use words::read::{first_at, limit_of, next_at, node_count, weight_at};

// By node: the sibling before it, its remainder, and of it and the siblings after it the sum of their remainders and
// the last of them. A link of 0 is none, as in a table; the arrays have zeros there, so it is read without a test.
#[derive(Drop)]
struct Siblings<'a> {
    before: &'a [u16; SLOTS],
    rests: [u16; SLOTS],
    sums: [u32; SLOTS],
    lasts: [u16; SLOTS],
}

// Cuts the children of node v, whose remainders are known: the node's own remainder. While the node and the children up
// to one of them exceed the limit, a run starts there; it takes the child before it while its weight stays within the
// limit.
#[tactic(auto, using(crate::proofs::RightmostRuns::first_slot))]
fn cut_runs(tree: Tree, nodes: &Siblings, marks: &mut [u8], v: u16) -> u16
    requires { CutReady tree.table.now nodes.now.before.now nodes.now.rests marks.old v
        (last_kid tree.table.now nodes.now.lasts v) (get_or nodes.now.sums (first_at tree.table.now v) 0) }
    ensures { CutDone tree.entry.table.now nodes.now.rests v (last_kid tree.entry.table.now nodes.now.lasts v)
        marks.old marks.new result }
{
    let first = first_at(tree.table, v) as usize;
    let limit = limit_of(tree.table) as u32;
    let weight = weight_at(tree.table, v) as u32;
    // the node with those children that stay, and with all up to this one
    let mut kept = weight;
    let mut left = weight + nodes.sums[first];
    // what a run that goes on to this child weighs with it
    let mut run: Option<u32> = None;
    let mut child = nodes.lasts[first] as usize;
    while child != 0 {
        let before = nodes.before[child] as usize;
        let rest = nodes.rests[child] as u32;
        let cut = run.is_some() || limit < left;
        let weighs = run.unwrap_or(rest) + (nodes.rests[before] as u32);
        let goes = cut && before != 0 && weighs <= limit;
        if cut {
            marks[child - 1] = if goes { 2 } else { 1 };
        } else {
            marks[child - 1] = 0;
            kept += rest;
        }
        left -= rest;
        run = goes.then_some(weighs);
        child = before;
    }
    kept as u16
}

// Node v has its children cut and keeps its remainder; with the siblings after it, their sum and the last of them.
#[tactic(auto, using(crate::proofs::RightmostRuns::next_slot))]
fn settle_node(tree: Tree, nodes: &mut Siblings, marks: &mut [u8], v: u16)
    requires { Settled tree.table.now nodes.old marks.old v × (1 ≤ v) × (v ≤ node_count tree.table.now) }
    ensures { Settled tree.entry.table.now nodes.new marks.new (v - 1) }
{
    let i = v as usize;
    let next = next_at(tree.table, v) as usize;
    let rest = cut_runs(tree, nodes, marks, v);
    nodes.rests[i] = rest;
    nodes.sums[i] = (rest as u32) + nodes.sums[next];
    nodes.lasts[i] = if next == 0 { v } else { nodes.lasts[next] };
}

// The plan of an accepted tree.
#[tactic(auto, using(crate::proofs::RightmostNodes::settled_plan))]
pub fn lay_rightmost(tree: Tree, marks: &mut [u8])
    requires { length marks.old ≡ node_count tree.table.now }
    ensures { marks.new ≡ rightmost_marks (limit_of tree.entry.table.now) (tree_of tree.entry.table.now) }
{
    let before = link_before(tree);
    let mut nodes = Siblings {
        before: &before,
        rests: [0; SLOTS],
        sums: [0; SLOTS],
        lasts: [0; SLOTS],
    };
    for v in (1..=node_count(tree.table)).rev() {
        settle_node(tree, &mut nodes, marks, v);
    }
    marks[0] = 1;
}
