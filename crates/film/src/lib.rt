// What film of an edition tells: its words, and the tree and the plan in them. The bytes may be anything; whether they
// are an archive is for the reader above to say. These are inner functions: the entries above lend room for their
// edition.
#![tactic(auto)]

pub mod decode;
mod fields;

pub use fields::Film;
