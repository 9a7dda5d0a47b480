// Marks are laid from the root down: a child follows its second plan where a chosen run took it, else its best plan.
ghost use Rattle.std.specs.Prelude.{◌≡◌, Bool, ℕ, ◌≤◌, false, length, get_or};
ghost use Rattle.model.specs.Table.{max_nodes, max_limit, node_count, limit_of, weight_at, tree_of};
ghost use Rattle.model.specs.Steps.{lay_marks, root_choice};
ghost use Rattle.best.specs.LayChoices.{takes, last_mark};
ghost use Rattle.columns.specs.CellsPlan.{NodesPlanned};
ghost use Rattle.columns.specs.CellsRun.{counts_of};
ghost use Rattle.columns.specs.CellsSums.{no_sums};
ghost use Rattle.best.specs.CellsLevel.{level_from};
ghost use Rattle.best.specs.LayContracts.{SumReady, SumDone, RunReady, RunDone, start_of, NodeReady, NodeDone};

use columns::column::block_at;
use columns::nodes::Nodes;
use columns::run::Sums;
use table::SLOTS;
use words::read::{limit_of, node_count, weight_at};

// Of a run's gains those above `gain` are taken, and of those at `gain` the earliest `times`.
#[derive(Clone, Copy)]
struct GainLevel {
    gain: u16,
    times: u16,
}

impl GainLevel {
    // The level at which the sum of a run has room.
    fn find(sums: &Sums, limit: u32) -> GainLevel
        requires { (sums.now.top ≤ limit) × (limit ≤ max_limit) }
        ensures { result ≡ level_from sums.now.top (counts_of sums.now.counts) limit sums.now.total }
    {
        let mut sum = sums.total;
        for gain in (1..=sums.top).rev() {
            for times in 0..sums.counts[gain as usize] {
                if sum <= limit {
                    return GainLevel { gain, times };
                }
                sum -= gain as u32;
            }
        }
        GainLevel { gain: 0, times: 0 }
    }

    // Whether a member with this gain is taken, where `before` members at the level come before it.
    fn takes(self, before: u16, gain: u16) -> bool
        ensures { result ≡ takes self.gain self.times before gain }
    {
        self.gain < gain || (gain == self.gain && before < self.times)
    }
}

// The sums over the last `len` children up to `child`, and how many of them have each gain. The sums are lent: given
// back by value their counts, 2 KB, were copied for each run.
fn sum_run(nodes: &Nodes, child: usize, len: u32, sums: &mut Sums)
    requires ready { SumReady child len nodes.now }
    requires empty { sums.old ≡ no_sums }
    ensures { SumDone child len nodes.now sums.new }
{
    let mut next = child;
    for _ in 0..len {
        sums.join(nodes.rests[next], nodes.gains[next]);
        next = nodes.prevs[next] as usize;
    }
}

// The mark of a run's member with so many members before it.
#[tactic(auto, unfolding(model::specs::Basics::pick))]
fn mark_of(before: u32) -> u8
    ensures { result ≡ last_mark before }
{
    if before == 0 { 1 } else { 2 }
}

// The marks of a run of the last `len` children up to `child`, from the last back: the sibling before the run.
fn lay_run(
    nodes: &Nodes,
    marks: &mut [u8],
    seconds: &mut [bool; SLOTS],
    child: usize,
    len: u32,
    limit: usize,
) -> usize
    requires { RunReady limit child len nodes.now marks.old seconds.old }
    ensures { RunDone limit child len nodes.now marks.old seconds.old marks.new seconds.new result }
{
    let mut sums = Sums::none();
    sum_run(nodes, child, len, &mut sums);
    let level = GainLevel::find(&sums, limit as u32);
    let mut before = sums.counts[level.gain as usize];
    let mut next = child;
    for left in (0..len).rev() {
        let gain = nodes.gains[next];
        if gain == level.gain {
            before -= 1;
        }
        seconds[next] = level.takes(before, gain);
        marks[next - 1] = mark_of(left);
        next = nodes.prevs[next] as usize;
    }
    next
}

// Where node v's plan starts: its weight, or the start of its second plan.
#[tactic(auto, unfolding(model::specs::Basics::pick, model::specs::Steps::second_start))]
fn start_of(table: &[u8], nodes: &Nodes, second: bool, limit: usize, v: u16) -> usize
    requires { (limit ≤ max_limit) × (v ≤ max_nodes) × (get_or nodes.now.rests v 0 ≤ limit) }
    ensures { result ≡ start_of limit (weight_at table.now v) (get_or nodes.now.rests v 0) second }
{
    let weight = weight_at(table, v) as usize;
    if second {
        weight + (limit - (nodes.rests[v as usize] as usize)) + 1
    } else {
        weight
    }
}

// The marks of node v's children, from the last back.
#[tactic(auto, using(crate::proofs::LayNode::block_small))]
fn lay_children(
    table: &[u8],
    nodes: &Nodes,
    words: &[u32],
    marks: &mut [u8],
    seconds: &mut [bool; SLOTS],
    v: u16,
)
    requires { NodeReady table.now v nodes.now words.now marks.old seconds.old }
    ensures { NodeDone table.now v nodes.now marks.old seconds.old marks.new seconds.new }
{
    let limit = limit_of(table) as usize;
    let mut start = start_of(table, nodes, seconds[v as usize], limit, v);
    let mut child = nodes.lasts[v as usize] as usize;
    while child != 0 {
        // 0 in place of a length says that the child stays: the columns lie in words that the caller lends
        let len = words[block_at(limit, child) + (limit + 1) + start];
        if len == 0 {
            seconds[child] = false;
            marks[child - 1] = 0;
            start += nodes.rests[child] as usize;
            child = nodes.prevs[child] as usize;
        } else {
            child = lay_run(nodes, marks, seconds, child, len, limit);
        }
    }
}

// The marks of all nodes, from the columns, figures and last children of all.
pub fn lay_nodes(table: &[u8], nodes: &Nodes, words: &[u32], marks: &mut [u8])
    requires { ((g : Bool) × NodesPlanned table.now g 0 nodes.now words.now)
        × (length marks.old ≡ node_count table.now) }
    ensures { (g : Bool) → NodesPlanned table.now g 0 nodes.now words.now
        → marks.new ≡ lay_marks g (limit_of table.now) (tree_of table.now) root_choice }
{
    let mut seconds = [false; SLOTS];
    marks[0] = 1;
    for v in 1..=node_count(table) {
        lay_children(table, nodes, words, marks, &mut seconds, v);
    }
}
