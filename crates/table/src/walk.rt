// The walk of the chains, child before sibling.
ghost use Rattle.std.specs.Prelude.{◌≡◌, ◌≤◌};
ghost use Rattle.model.specs.Table.{max_nodes, node_count, walk_place};

use crate::SLOTS;
use words::read::{first_at, next_at, node_count};

// Where the walk fails: at 0 where node 1 has a sibling, else at the nodes met in order before. What is still to be
// visited is a stack; each node met puts two links in the place of one, so that it is never higher than the nodes met
// and one.
#[tactic(auto, using(crate::proofs::Pending::turns))]
pub fn walk_place(table: &[u8]) -> Option<u16>
    requires { node_count table.now ≤ max_nodes }
    ensures { result ≡ walk_place table.now }
{
    if next_at(table, 1) != 0 {
        return Some(0);
    }
    let nodes = node_count(table);
    // An array and its height: a vector of fixed capacity keeps its length in memory, and the walk takes half as long
    // again.
    let mut pending = [0u16; SLOTS];
    pending[0] = 1;
    let mut height: usize = 1;
    let mut met: u16 = 0;
    while 0 < height {
        height -= 1;
        let v = pending[height];
        if v != 0 {
            if nodes <= met || v != met + 1 {
                return Some(met);
            }
            met = v;
            pending[height] = next_at(table, v);
            pending[height + 1] = first_at(table, v);
            height += 2;
        }
    }
    if met == nodes { None } else { Some(met) }
}
