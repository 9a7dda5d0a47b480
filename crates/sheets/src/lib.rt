// The printer of leader sheets: a plan as text of fixed widths, for the leader of a spool. Refusal 12.
#![tactic(auto)]

mod line;
mod print;
mod sheet;

pub use print::print_sheets;
