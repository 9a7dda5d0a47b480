// The words that the scratch keeps of each node.
ghost use Rattle.std.specs.Prelude.{◌≡◌, ◌≤◌, length};
ghost use Rattle.model.specs.Table.{node_count};
ghost use Rattle.greedy.specs.Kept.{kept};

use table::Tree;

// A tree, and a word of the scratch for each of its nodes.
#[derive(Clone, Copy)]
pub struct Kept<'a> {
    pub tree: Tree<'a>,
    pub scratch: &'a [u32],
    ghost long: { node_count tree.table.now ≤ length scratch.now },
}

impl Kept<'_> {
    // What is kept of node v, and 0 where there is none: what no node adds to a sum.
    #[tactic(auto, unfolding(crate::specs::Kept::kept))]
    pub fn at(self, v: u16) -> u32
        requires { v ≤ length self.scratch.now }
        ensures { result ≡ kept self.entry.scratch.now v }
    {
        match v.checked_sub(1) {
            Some(i) => self.scratch[i as usize],
            None => 0,
        }
    }
}
