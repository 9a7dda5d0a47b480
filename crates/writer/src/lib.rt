// The archive's writer, in an edition. Refusals 15 and 12. What the reader takes from it is public.
#![tactic(auto)]

pub mod write;

pub use write::{write_archive, write_archive2};
