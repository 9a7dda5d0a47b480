// Links back to the sibling before.
ghost use Rattle.theory.specs.SiblingsBack.{SiblingsLinked};
ghost use Rattle.theory.specs.TableFacts.{AcceptedFacts};

use crate::{SLOTS, Tree};
use words::read::{next_at, node_count};

// The sibling before each node, or 0.
#[tactic(auto, using(crate::proofs::Linking::link_fits))]
pub fn link_before(tree: Tree) -> [u16; SLOTS]
    ensures { SiblingsLinked tree.entry.table.now result }
{
    let table = tree.table;
    let nodes = node_count(table);
    let mut prevs = [0u16; SLOTS];
    for v in 1..=nodes {
        prevs[next_at(table, v) as usize] = v;
    }
    // the last of each chain has no sibling after it
    prevs[0] = 0;
    prevs
}
