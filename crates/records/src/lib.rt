// The editions of the archive and how large an archive is, its head and records put into an output, links and counts of
// nodes. These are inner functions: a Format says that there is room for its edition, and writer, decoder and reader
// above lend the arrays and an output of its length.
#![tactic(auto)]

pub mod counts;
pub mod links;
pub mod records;
pub mod size;
