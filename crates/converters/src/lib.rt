// The converters from one edition to the other: what the reader finds to be film, written again. Refusals 13, 14, 15
// and 12.
#![tactic(auto)]

mod convert;

pub use convert::{convert_to_1, convert_to_2};
