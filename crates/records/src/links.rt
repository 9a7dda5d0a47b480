// The next number with the same key, for each number: the next node of the same page, and the next node with the same
// parent. One pass from the last number to the first keeps the last one seen of each key. 0 says that there is none, as
// on film.
ghost use Rattle.std.specs.Prelude.{◌<◌, length};
ghost use Rattle.records.specs.Size.{film_slots};
ghost use Rattle.records.specs.Links.{Linked, Fit};

use crate::size::FILM_SLOTS;

pub fn link_next(keys: &[u16], nodes: u16) -> [u16; FILM_SLOTS]
    requires { (nodes < film_slots) × Fit nodes keys.now × (nodes < length keys.now) }
    ensures { Linked keys.now nodes result }
{
    let mut seen = [0; FILM_SLOTS];
    let mut next = [0; FILM_SLOTS];
    for v in (1..=nodes).rev() {
        let key = keys[v as usize] as usize;
        next[v as usize] = seen[key];
        seen[key] = v;
    }
    next
}
