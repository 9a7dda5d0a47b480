// What a plan makes of a tree: the parent and the page of each node, the weight and the run of each page, and the first
// mark that is not allowed.
ghost use Rattle.std.specs.Prelude.{◌≡◌, ◌≤◌, ◌<◌, ◌+◌, ◌-◌, ◌||◌, get_or, set, eqb};
ghost use Rattle.model.specs.Basics.{pick};
ghost use Rattle.model.specs.Table.{slots};
ghost use Rattle.model.specs.Plan.{bad_mark};
ghost use Rattle.layout.specs.Rows.{Cleared, IsLayout};

use crate::Layout;
use crate::marks::{is_good, mark_at};
use table::{SLOTS, Tree};
use words::read::{next_at, node_count, weight_at};

impl Layout {
    // The parent of node v: that of the sibling before it, or else the node just before it.
    #[tactic(auto, unfolding(model::specs::Basics::pick))]
    fn parent_after(&self, v: u16, sibling: u16) -> u16
        requires node { 1 ≤ v }
        requires slot { sibling < slots }
        ensures { result ≡ pick (eqb sibling 0) (v - 1) (get_or self.now.parents sibling 0) }
    {
        if sibling == 0 {
            v - 1
        } else {
            self.parents[sibling as usize]
        }
    }

    // The page of a node: a 1 is on the page opened last, a 2 on that of the sibling before it, a 0 on its parent's.
    #[tactic(auto, unfolding(model::specs::Basics::pick))]
    fn page_after(&self, mark: u8, sibling: u16, parent: u16) -> u16
        requires back { sibling < slots }
        requires up { parent < slots }
        ensures { result ≡ pick (eqb mark 1) self.now.pages
            (get_or self.now.page (pick (eqb mark 2) sibling parent) 0) }
    {
        match mark {
            1 => self.pages,
            2 => self.page[sibling as usize],
            _ => self.page[parent as usize],
        }
    }

    // Puts node v on a page. A 1 is its first node, and the last 1 or 2 is the last sibling of its run.
    #[tactic(auto, unfolding(model::specs::Basics::pick))]
    fn put(&mut self, v: u16, mark: u8, page: u16, weight: u16)
        requires node { v < slots }
        requires slot { page < slots }
        requires light { get_or self.old.weights page 0 + weight < 4294967296 }
        ensures { self.new ≡ record {
          parents = self.old.parents;
          page = set self.old.page v page;
          firsts = set self.old.firsts page (pick (eqb mark 1) v (get_or self.old.firsts page 0));
          lasts = set self.old.lasts page (pick (eqb mark 1 || eqb mark 2) v (get_or self.old.lasts page 0));
          weights = set self.old.weights page (get_or self.old.weights page 0 + weight);
          pages = self.old.pages;
        } }
    {
        let slot = page as usize;
        self.page[v as usize] = page;
        if mark == 1 {
            self.firsts[slot] = v;
        }
        if mark == 1 || mark == 2 {
            self.lasts[slot] = v;
        }
        self.weights[slot] += weight as u32;
    }
}

// One pass in node order, which fills the layout, and finds the first bad mark. A node with no sibling before it comes
// just after its parent. A 1 opens the next page and is its first node, a 2 joins the page of the sibling before it,
// and a 0 its parent's; the node's weight is added to that page. Siblings come in rising order, so the last 1 or 2 on
// a page is the last sibling of its run.
pub fn lay_pages(tree: Tree, marks: &[u8], layout: &mut Layout) -> Option<u16>
    requires { Cleared layout.old }
    ensures layout { IsLayout tree.entry.table.now marks.now layout.new }
    ensures bad_value { result ≡ bad_mark tree.entry.table.now marks.now }
{
    let table = tree.table;
    let mut before = [0u16; SLOTS];
    let mut bad = None;
    for v in 1..=node_count(table) {
        let mark = mark_at(marks, v);
        let sibling = before[v as usize];
        let good = is_good(v, mark, sibling, mark_at(marks, sibling));
        bad = bad.or((!good).then_some(v));
        let parent = layout.parent_after(v, sibling);
        layout.parents[v as usize] = parent;
        layout.pages += u16::from(mark == 1);
        let page = layout.page_after(mark, sibling, parent);
        layout.put(v, mark, page, weight_at(table, v));
        before[next_at(table, v) as usize] = v;
    }
    bad
}
