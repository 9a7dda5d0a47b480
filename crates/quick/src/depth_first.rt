// The plan of depth-first, in one pass in node order: a node joins the current page, which is the one begun last, or
// begins the next.
ghost use Rattle.std.specs.Prelude.{◌≡◌, ◌+◌, ◌*◌, ◌≤◌, length};
ghost use Rattle.model.specs.Table.{max_limit, node_count, limit_of, tree_of};
ghost use Rattle.model.specs.Steps.{page_mark, depth_first_marks};

use table::{SLOTS, Tree};
use words::read::{limit_of, next_at, node_count, weight_at};

// The current page: how many pages have been begun, which is its number, and its weight so far.
#[derive(Clone, Copy, Debug, PartialEq, Eq)]
struct Page {
    number: u16,
    weight: u16,
}

impl Page {
    // The mark of a node after it: 0 or 2 where the node joins the page, which has room for it and holds its parent or
    // the sibling before it, and else 1. `up` and `back` are the pages of these two.
    #[tactic(auto, unfolding(model::specs::Steps::page_mark, model::specs::Steps::joins, model::specs::Basics::pick))]
    fn mark(self, limit: u16, weight: u16, up: u16, back: u16) -> u8
        requires { self.weight + weight ≤ 2 * max_limit }
        ensures { result ≡ page_mark limit weight up back (record { number = self.number; weight = self.weight }) }
    {
        let room = self.number != 0 && self.weight + weight <= limit;
        if room && up == self.number {
            0
        } else if room && back == self.number {
            2
        } else {
            1
        }
    }
}

// What is known of a node: the sibling before it, its parent, its page. A link of 0 is none, as in a table; the array
// has zeros there, so it is read without a test.
#[derive(Clone, Copy, Debug, PartialEq, Eq)]
struct Seen {
    before: u16,
    parent: u16,
    page: u16,
}

// The marks of an accepted tree.
#[tactic(auto, using(crate::proofs::DepthTurns::turn_fits))]
pub fn lay_depth_first(tree: Tree, marks: &mut [u8])
    requires { length marks.old ≡ node_count tree.table.now }
    ensures { marks.new ≡ depth_first_marks (limit_of tree.entry.table.now) (tree_of tree.entry.table.now) }
{
    let limit = limit_of(tree.table);
    let mut nodes = [Seen {
        before: 0,
        parent: 0,
        page: 0,
    }; SLOTS];
    let mut page = Page {
        number: 0,
        weight: 0,
    };
    for v in 1..=node_count(tree.table) {
        let i = v as usize;
        let u = nodes[i].before as usize;
        // a node with no sibling before it comes just after its parent
        let parent = if u == 0 { v - 1 } else { nodes[u].parent };
        let weight = weight_at(tree.table, v);
        let mark = page.mark(limit, weight, nodes[parent as usize].page, nodes[u].page);
        if mark == 1 {
            page.number += 1;
            page.weight = weight;
        } else {
            page.weight += weight;
        }
        marks[i - 1] = mark;
        nodes[i].parent = parent;
        nodes[i].page = page.number;
        nodes[next_at(tree.table, v) as usize].before = v;
    }
}
