// The plans of the two quick planners of document 02.
#![tactic(auto)]

pub mod depth_first;
pub mod rightmost;
