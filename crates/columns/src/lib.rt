// The first half of the best planner, and of the level planner: a column of cells for each child, and the figures of
// each node. The second half lays the marks. These are inner functions: the planners above see to an accepted tree and
// room.
#![tactic(auto)]

pub mod column;
pub mod node;
pub mod nodes;
pub mod run;
