// The pages of a plan by number, in one pass: for every plan of an accepted tree, whatever the judge says of it.
#![tactic(auto)]

mod marks;
mod pages;

ghost use Rattle.layout.specs.Rows.{Cleared};

pub use pages::lay_pages;
use table::SLOTS;

// What a plan makes of a tree: by node its parent and its page; by page its first node, the last sibling of its run,
// and its weight; and how many pages there are.
#[derive(Drop)]
pub struct Layout {
    pub parents: [u16; SLOTS],
    pub page: [u16; SLOTS],
    pub firsts: [u16; SLOTS],
    pub lasts: [u16; SLOTS],
    pub weights: [u32; SLOTS],
    pub pages: u16,
}

impl Layout {
    // As it is before the pass.
    pub fn cleared() -> Layout
        ensures { Cleared result }
    {
        Layout {
            parents: [0; SLOTS],
            page: [0; SLOTS],
            firsts: [0; SLOTS],
            lasts: [0; SLOTS],
            weights: [0; SLOTS],
            pages: 0,
        }
    }
}
