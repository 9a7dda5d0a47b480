// The single planner: nodes from the last to the first, each with its children cut, the heaviest first, until it is
// within the limit.
ghost use Rattle.std.specs.Prelude.{◌≡◌, ◌≤◌, length};
ghost use Rattle.model.specs.Table.{node_count, limit_of, tree_of};
ghost use Rattle.model.specs.Steps.{single_marks};
ghost use Rattle.theory.specs.TableChain.{chain_at};
ghost use Rattle.greedy.specs.SingleMembers.{rest_at};
ghost use Rattle.greedy.specs.SingleSettled.{Settled};
ghost use Rattle.greedy.specs.SingleCuts.{Heaviest, CutReady, CutDone, SettleReady, most_sum};

use crate::kept::Kept;
use table::Tree;
use words::read::{first_at, limit_of, next_at, node_count, weight_at};

// What the siblings from node v on weigh.
#[tactic(auto, using(crate::proofs::Scan::next_less))]
fn sum_rests(kept: Kept, v: u16) -> u32
    requires { (v ≤ node_count kept.tree.table.now)
        × (rest_at kept.tree.table.now kept.scratch.now v (chain_at kept.tree.table.now v) ≤ most_sum) }
    ensures { result
        ≡ rest_at kept.entry.tree.table.now kept.entry.scratch.now v (chain_at kept.entry.tree.table.now v) }
{
    let mut sum: u32 = 0;
    let mut u = v;
    while u != 0 {
        sum += kept.at(u);
        u = next_at(kept.tree.table, u);
    }
    sum
}

// Of the siblings from node v on, the heaviest, and the earliest among equals.
#[tactic(auto, using(crate::proofs::Scan::next_less, crate::proofs::Scan::scan_end))]
fn find_heaviest(kept: Kept, v: u16) -> u16
    requires { (1 ≤ v) × (v ≤ node_count kept.tree.table.now) }
    ensures { Heaviest kept.entry.tree.table.now kept.entry.scratch.now v result }
{
    let mut best = v;
    let mut most = kept.at(v);
    let mut u = next_at(kept.tree.table, v);
    while u != 0 {
        let rest = kept.at(u);
        if most < rest {
            best = u;
            most = rest;
        }
        u = next_at(kept.tree.table, u);
    }
    best
}

// Children of node v are cut until they are within the room: what is left of their weight. The marks and the scratch
// are lent one by one: a struct that held both would make each contract say that it still holds the same two.
#[tactic(auto, using(crate::proofs::Cut::cut_sums, crate::proofs::Cut::cut_scans))]
fn cut_children(tree: Tree, marks: &mut [u8], scratch: &mut [u32], v: u16, room: u32) -> u32
    requires { CutReady tree.table.now scratch.old marks.old v }
    ensures { CutDone tree.entry.table.now v room scratch.old marks.old scratch.new marks.new result }
{
    let first = first_at(tree.table, v);
    let mut sum = sum_rests(Kept { tree, scratch }, first);
    while room < sum {
        let kept = Kept { tree, scratch };
        let heavy = find_heaviest(kept, first);
        sum -= kept.at(heavy);
        scratch[(heavy as usize) - 1] = 0;
        marks[(heavy as usize) - 1] = 1;
    }
    sum
}

// Node v keeps what its children leave it, and is not cut so far.
#[tactic(auto, using(crate::proofs::Settle::settle_cuts))]
fn settle(tree: Tree, marks: &mut [u8], scratch: &mut [u32], v: u16)
    requires { SettleReady tree.table.now scratch.old marks.old v }
    ensures { Settled tree.entry.table.now v scratch.old marks.old scratch.new marks.new }
{
    let weight = weight_at(tree.table, v);
    let room = limit_of(tree.table) - weight;
    let rest = cut_children(tree, marks, scratch, v, room as u32);
    scratch[(v as usize) - 1] = (weight as u32) + rest;
    marks[(v as usize) - 1] = 0;
}

// The plan of an accepted tree.
pub fn lay_single(tree: Tree, marks: &mut [u8], scratch: &mut [u32])
    requires { (length marks.old ≡ node_count tree.table.now)
        × (node_count tree.table.now ≤ length scratch.old) }
    ensures { marks.new ≡ single_marks (limit_of tree.entry.table.now) (tree_of tree.entry.table.now) }
{
    for v in (1..=node_count(tree.table)).rev() {
        settle(tree, marks, scratch, v);
    }
    marks[0] = 1;
}
