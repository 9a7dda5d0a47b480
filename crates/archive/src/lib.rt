// The archive's reader, in an edition: it writes what it decoded, and compares. Refusal 13, and 12 and 8. What the
// converters take from it is public.
#![tactic(auto)]

pub mod judged;
pub mod opened;
mod read;

pub use read::{read_archive, read_archive2};
