// How many nodes each page has.
ghost use Rattle.std.specs.Prelude.{◌≡◌, ◌<◌, length, replicate};
ghost use Rattle.records.specs.Size.{film_slots};
ghost use Rattle.records.specs.Links.{Fit};
ghost use Rattle.records.specs.Counts.{Counted};

use crate::size::FILM_SLOTS;
use model::Edition;

// How many of the nodes are on each page, from the page of each; counted where the edition's page records tell it. The
// counts are lent: given back by value they were copied, and the writer took more stack.
pub fn count_nodes(e: Edition, page: &[u16], nodes: u16, counts: &mut [u16; FILM_SLOTS])
    requires { (nodes < film_slots) × Fit nodes page.now × (nodes < length page.now)
        × (counts.old ≡ replicate film_slots 0) }
    ensures { 4 < e.page → Counted page.now nodes counts.new }
{
    if 4 < e.page {
        for v in 1..=nodes {
            let p = page[v as usize] as usize;
            counts[p] += 1;
        }
    }
}
