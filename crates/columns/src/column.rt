// The column of a child: at each start the best of the candidates, in the listed order. A word has a count and a
// rest, and a smaller word is a smaller count, or the same count and a smaller rest. Beside each word stands the
// length of the run that won, 0 where the child stays: both lie in the words that the caller of the C interface lends.
// The loops over the starts end below limit + 1, since up to and with the limit they run slower by a third.
ghost use Rattle.std.specs.Prelude.{◌≡◌, ℕ, ◌+◌, ◌*◌, ◌≤◌, ◌<◌, length, get_or};
ghost use Rattle.model.specs.Table.{max_nodes, max_limit};
ghost use Rattle.columns.specs.Cells.{cell_at, lower, stay_cell};
ghost use Rattle.columns.specs.CellsArrays.{cell_in, children_in, Swept};
ghost use Rattle.columns.specs.CellsRun.{block_at, Fillable};

use crate::nodes::Nodes;
use crate::run::Sums;

// What one page counts in a word.
pub const PAGE_WORD: u32 = 1 << 16;

// Above every word.
const NO_WORD: u32 = u32::MAX;

// Where the block of node v begins.
pub fn block_at(limit: usize, v: usize) -> usize
    requires { (limit ≤ max_limit) × (v ≤ max_nodes) }
    ensures { result ≡ block_at limit v }
{
    v * (2 * (limit + 1))
}

// The child stays, where start and rest are at most the limit: `before` is the block of the children before it.
fn stay(words: &mut [u32], here: usize, before: usize, start: usize, limit: usize, rest: usize)
    requires { (limit ≤ max_limit) × (rest ≤ max_limit) × (start ≤ max_limit) × (before + 2 * (limit + 1) ≤ here)
        × (here + 2 * (limit + 1) ≤ length words.old) }
    ensures { Swept limit start here
        (λ s. stay_cell limit s rest (get_or words.old (before + (s + rest)) 0))
        words.old words.new }
{
    for s in start..limit + 1 {
        let word = if s + rest <= limit {
            words[before + (s + rest)]
        } else {
            NO_WORD
        };
        words[here + s] = word;
        words[here + (limit + 1) + s] = 0;
    }
}

// A run of so many children against the candidates before it: its word is the one before the run and what is added.
// Both words are written whether it wins or not, so that the loop has no branch.
fn relax(
    words: &mut [u32],
    here: usize,
    before: usize,
    start: usize,
    limit: usize,
    added: u32,
    len: u32,
)
    requires { (limit ≤ max_limit) × (start ≤ max_limit) × (before + 2 * (limit + 1) ≤ here)
        × (here + 2 * (limit + 1) ≤ length words.old)
        × ((s : ℕ) → start ≤ s → s ≤ limit → get_or words.old (before + s) 0 + added < 4294967296) }
    ensures { Swept limit start here
        (λ s. lower (get_or words.old (before + s) 0 + added) len (cell_in words.old limit here s))
        words.old words.new }
{
    for s in start..limit + 1 {
        let word = words[before + s] + added;
        let held = words[here + s];
        let run = words[here + (limit + 1) + s];
        let (word, run) = if word < held {
            (word, len)
        } else {
            (held, run)
        };
        words[here + s] = word;
        words[here + (limit + 1) + s] = run;
    }
}

// The column of a child, after those of the siblings before it.
pub fn fill_column(words: &mut [u32], nodes: &Nodes, child: usize, start: usize, limit: usize)
    requires { (start ≤ limit) × Fillable limit start child nodes.now words.old }
    ensures { Swept limit start (block_at limit child)
        (λ s. cell_at limit (children_in nodes.now child) s)
        words.old words.new }
{
    let here = block_at(limit, child);
    let first = block_at(limit, nodes.prevs[child] as usize);
    stay(
        words,
        here,
        first,
        start,
        limit,
        nodes.rests[child] as usize,
    );
    let mut sums = Sums::none();
    let mut next = child;
    'stretch: while next != 0 {
        sums.join(nodes.rests[next], nodes.gains[next]);
        next = nodes.prevs[next] as usize;
        let mut sum = sums.total;
        let mut taken: u32 = 0;
        let mut gain = sums.top;
        let mut left = sums.counts[gain as usize];
        while (limit as u32) < sum {
            // the lightest total passes the limit: the run is no candidate, and no longer one is
            if (limit as u32) < sums.total - sums.gained {
                break 'stretch;
            }
            if left == 0 {
                gain -= 1;
                left = sums.counts[gain as usize];
            } else {
                left -= 1;
                sum -= gain as u32;
                taken += 1;
            }
        }
        let before = block_at(limit, next);
        relax(
            words,
            here,
            before,
            start,
            limit,
            (1 + taken) * PAGE_WORD,
            sums.len,
        );
    }
}
