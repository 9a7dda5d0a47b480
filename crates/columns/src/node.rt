// The nodes from the last to the first: the columns of each node's children, and the figures that its parent sees.
ghost use Rattle.std.specs.Prelude.{◌≡◌, [], ◌+◌, ◌-◌, ◌*◌, ◌%◌, ◌≤◌, length, get_or};
ghost use Rattle.model.specs.Table.{max_limit, node_count};
ghost use Rattle.model.specs.Steps.{second_start};
ghost use Rattle.columns.specs.Cells.{page_word, cell_at};
ghost use Rattle.columns.specs.CellsArrays.{Swept};
ghost use Rattle.columns.specs.CellsNode.{ColumnsReady, ColumnsFilled};
ghost use Rattle.columns.specs.CellsPlan.{NodesPlanned, gain_from};

use crate::column::{PAGE_WORD, block_at, fill_column};
use crate::nodes::Nodes;
use words::read::{first_at, limit_of, next_at, node_count, weight_at};

// The column of no child: nothing is counted, and the rest is the start.
pub fn open_block(words: &mut [u32], limit: usize)
    requires { (limit ≤ max_limit) × (2 * (limit + 1) ≤ length words.old) }
    ensures { Swept limit 0 0 (λ s. cell_at limit [] s) words.old words.new }
{
    for s in 0..limit + 1 {
        words[s] = s as u32;
        words[limit + 1 + s] = 0;
    }
}

// The columns of node v's children: the last of them, or 0.
fn fill_columns(table: &[u8], nodes: &Nodes, words: &mut [u32], v: u16) -> u16
    requires { ColumnsReady table.now nodes.now words.old × (1 ≤ v) × (v ≤ node_count table.now) }
    ensures { ColumnsFilled table.now nodes.now v result words.old words.new }
{
    let limit = limit_of(table) as usize;
    let start = weight_at(table, v) as usize;
    let mut last: u16 = 0;
    let mut child = first_at(table, v);
    while child != 0 {
        fill_column(words, nodes, child as usize, start, limit);
        last = child;
        child = next_at(table, child);
    }
    last
}

// What the second plan of a node takes off its rest; 0 where there is none. `here` is the block of its last child.
#[tactic(auto, using(crate::proofs::NodeGains::gain_none, crate::proofs::NodeGains::gain_found))]
fn gain_in(
    words: &[u32],
    gainful: bool,
    here: usize,
    limit: usize,
    weight: usize,
    rest: usize,
) -> usize
    requires { (limit ≤ max_limit) × (weight ≤ limit) × (rest ≤ limit)
        × (here + 2 * (limit + 1) ≤ length words.now) }
    ensures { result ≡ gain_from gainful limit weight rest
        (get_or words.now (here + second_start limit weight rest) 0 % page_word) }
{
    let second = weight + (limit - rest) + 1;
    if !gainful || limit < second {
        return 0;
    }
    let found = (words[here + second] % PAGE_WORD) as usize;
    rest.saturating_sub(found.saturating_sub(limit - rest + 1))
}

// The columns of node v's children, and its figures.
fn plan_node(table: &[u8], gainful: bool, nodes: &mut Nodes, words: &mut [u32], v: u16)
    requires { NodesPlanned table.now gainful v nodes.old words.old × (1 ≤ v) × (v ≤ node_count table.now) }
    ensures planned { NodesPlanned table.now gainful (v - 1) nodes.new words.new }
    ensures same { nodes.new.prevs ≡ nodes.old.prevs }
{
    let limit = limit_of(table) as usize;
    let weight = weight_at(table, v) as usize;
    let last = fill_columns(table, nodes, words, v);
    let here = block_at(limit, last as usize);
    let rest = (words[here + weight] % PAGE_WORD) as u16;
    let gain = gain_in(words, gainful, here, limit, weight, rest as usize) as u16;
    nodes.rests[v as usize] = rest;
    nodes.gains[v as usize] = gain;
    nodes.lasts[v as usize] = last;
}

// All nodes, children before parents.
pub fn plan_nodes(table: &[u8], gainful: bool, nodes: &mut Nodes, words: &mut [u32])
    requires { ColumnsReady table.now nodes.old words.old }
    ensures planned { NodesPlanned table.now gainful 0 nodes.new words.new }
    ensures same { nodes.new.prevs ≡ nodes.old.prevs }
{
    for v in (1..=node_count(table)).rev() {
        plan_node(table, gainful, nodes, words, v);
    }
}
