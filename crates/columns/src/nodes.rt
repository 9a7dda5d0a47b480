// What is kept of each node, by number.
use table::SLOTS;

// The sibling before it, the two figures that its parent sees, and its last child. 0 stands for no sibling and no
// child, as in the table's own links.
#[derive(Drop)]
pub struct Nodes {
    pub prevs: [u16; SLOTS],
    pub rests: [u16; SLOTS],
    pub gains: [u16; SLOTS],
    pub lasts: [u16; SLOTS],
}
