// The plans of single and pair: of what is too heavy for a node, the heaviest is cut first.
#![tactic(auto)]

mod kept;
pub mod pair;
mod sides;
pub mod single;
