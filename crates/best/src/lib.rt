// The plan of the best planner, and of the level planner: the marks, from the columns and the figures of all nodes.
#![tactic(auto)]

mod lay;

ghost use Rattle.std.specs.Prelude.{◌≡◌, ◌≤◌, length};
ghost use Rattle.model.specs.Table.{node_count, limit_of, tree_of};
ghost use Rattle.model.specs.Steps.{lay_marks, root_choice};
ghost use Rattle.model.specs.Refusals.{scratch_words};

use columns::node::{open_block, plan_nodes};
use columns::nodes::Nodes;
use lay::lay_nodes;
use table::links::link_before;
use table::{SLOTS, Tree};
use words::read::limit_of;

// The marks of an accepted tree; with every gain 0 they are level's.
pub fn lay_best(tree: Tree, gainful: bool, marks: &mut [u8], scratch: &mut [u32])
    requires { (length marks.old ≡ node_count tree.table.now)
        × (scratch_words (node_count tree.table.now) (limit_of tree.table.now) ≤ length scratch.old) }
    ensures { marks.new
        ≡ lay_marks gainful (limit_of tree.entry.table.now) (tree_of tree.entry.table.now) root_choice }
{
    let table = tree.table;
    let mut nodes = Nodes {
        prevs: link_before(tree),
        rests: [0; SLOTS],
        gains: [0; SLOTS],
        lasts: [0; SLOTS],
    };
    open_block(scratch, limit_of(table) as usize);
    plan_nodes(table, gainful, &mut nodes, scratch);
    lay_nodes(table, &nodes, scratch, marks);
}
