// What the pair planner cuts a node by: the two sides of a node of the two-way tree.
ghost use Rattle.std.specs.Prelude.{◌≡◌, ◌+◌, ◌*◌, ◌≤◌};
ghost use Rattle.model.specs.Table.{max_limit};
ghost use Rattle.theory.specs.PairShape.{unless_cut};
ghost use Rattle.greedy.specs.PairSides.{left_first, left_cut, right_cut};

use crate::kept::Kept;
use words::read::{first_at, limit_of, next_at, weight_at};

// The limit, the weight of a node, and the weights of its sides.
#[derive(Clone, Copy, Debug, PartialEq, Eq)]
pub struct Sides {
    pub limit: u32,
    pub weight: u32,
    pub left: u32,
    pub right: u32,
    ghost fits: { weight + left + right ≤ 3 * max_limit },
}

impl Sides {
    ghost use Rattle.greedy.specs.PairMarks.{PairReady, SidesAt};

    // Node v and its sides: the remainders at its first child and at its next sibling. Inlined, since a call for each
    // node takes longer than what it does.
    #[tactic(auto, using(crate::proofs::TwoWay::first_node, crate::proofs::TwoWay::next_node))]
    #[inline(always)]
    pub fn at_node(kept: Kept, v: u16) -> Sides
        requires { PairReady kept.tree.table.now kept.scratch.now v }
        ensures { SidesAt kept.entry.tree.table.now v result }
    {
        let table = kept.tree.table;
        Sides {
            limit: limit_of(table) as u32,
            weight: weight_at(table, v) as u32,
            left: kept.at(first_at(table, v)),
            right: kept.at(next_at(table, v)),
        }
    }

    // The heavier side goes first, and of equal sides the left.
    fn left_first(self) -> bool
        ensures { result ≡ left_first self.left self.right }
    {
        self.right <= self.left
    }

    #[tactic(auto, unfolding(crate::specs::PairSides::left_cut))]
    pub fn cuts_left(self) -> bool
        ensures { result ≡ left_cut self.limit self.weight self.left self.right }
    {
        self.limit < self.weight + self.left + self.right
            && (self.left_first() || self.limit < self.weight + self.left)
    }

    #[tactic(auto, unfolding(crate::specs::PairSides::right_cut))]
    pub fn cuts_right(self) -> bool
        ensures { result ≡ right_cut self.limit self.weight self.left self.right }
    {
        self.limit < self.weight + self.left + self.right
            && (!self.left_first() || self.limit < self.weight + self.right)
    }

    // The node's weight, and what is left of its sides.
    #[tactic(auto, unfolding(model::specs::Basics::pick))]
    pub fn remainder(self) -> u32
        ensures { result
            ≡ self.weight + unless_cut (left_cut self.limit self.weight self.left self.right) self.left
            + unless_cut (right_cut self.limit self.weight self.left self.right) self.right }
    {
        let left = if self.cuts_left() { 0 } else { self.left };
        let right = if self.cuts_right() { 0 } else { self.right };
        self.weight + left + right
    }
}
