// Words read from a string of bytes and put into one, and texts put. What lies past the end reads as 0 and is not put.
// These are inner functions: a record or a text that is put has to fit.
#![tactic(auto)]

pub mod put;
pub mod read;
