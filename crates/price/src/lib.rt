// The film maker's price of a plan, and what the best plan saves against the single-cut plan. Fewest pages is not
// lowest price: a saving can be below zero.
#![tactic(auto)]

mod priced;
mod prices;
mod saved;

pub use priced::price;
pub use saved::saving;
