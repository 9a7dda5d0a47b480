// The tree reader: the walk of the chains, and the refusals 1 to 7 and 14, of which 5 is retired. Siblings are also
// linked back, for whoever goes through them from the last.
#![tactic(auto)]

pub mod links;
mod walk;

ghost use Rattle.std.specs.Prelude.{◌≡◌, ◌≤◌, eqb, ltb, ◌||◌, Bool, ℕ, IfOk};
ghost use Rattle.model.specs.Basics.{first_to};
ghost use Rattle.model.specs.Table.{table_bytes};
ghost use Rattle.model.specs.Refusals.{accepted, head_checks, asked, no_label, heavy_node, first_of, read_tree};
ghost use Rattle.model.specs.Refusals.{tree_told};
ghost use Rattle.model.specs.Demand.{WeightPromise};
ghost use Rattle.theory.specs.JudgeAnswers.{tree_answer};
ghost use Rattle.theory.specs.TableFacts.{AcceptedFacts};
ghost use Rattle.table.specs.Search.{IsTestTo};

use model::Refusal;
use walk::walk_place;
use words::read::{label_at, limit_of, node_count, weight_at};

// The most nodes that a table has.
pub const MAX_NODES: u16 = 2048;

// The highest page limit.
pub const MAX_LIMIT: u16 = 1024;

// A place for each node or page by number, and one for 0.
pub const SLOTS: usize = MAX_NODES as usize + 1;

// A table that the tree reader accepted.
#[derive(Clone, Copy)]
pub struct Tree<'a> {
    pub table: &'a [u8],
    ghost accepted: { AcceptedFacts table.now },
}

// The first of the numbers from 1 on, up to the last, that passes a test.
pub fn first_to<F: Fn(u16) -> bool>(last: u16, passes: F) -> Option<u16>
    requires { (v : ℕ) → 1 ≤ v → v ≤ last → F.pre passes v }
    ensures { (test : ℕ → Bool) → IsTestTo last (F.post passes) test → result ≡ first_to last test }
{
    for v in 1..=last {
        if passes(v) {
            return Some(v);
        }
    }
    None
}

// A head word that is 0 or over its bound.
fn is_outside(word: u16, most: u16) -> bool
    ensures { result ≡ (eqb word 0 || ltb most word) }
{
    word == 0 || most < word
}

// How many bytes the table of so many nodes has.
pub fn table_bytes(nodes: u16) -> u32
    ensures { result ≡ table_bytes nodes }
{
    4 + 8 * (nodes as u32)
}

// 1 to 4: the head and the length.
#[tactic(auto, using(crate::proofs::Told::head_parts), unfolding(model::specs::Basics::when, model::specs::Basics::at_place))]
fn read_head(table: &[u8]) -> Result<(), Refusal>
    ensures { tree_told result ≡ first_of (head_checks table.now) accepted }
{
    let nodes = node_count(table);
    let limit = limit_of(table);
    let size = table_bytes(nodes);
    if table.len() < 4 {
        return Err(Refusal::ShortTable);
    }
    if is_outside(nodes, MAX_NODES) {
        return Err(Refusal::BadCount(nodes));
    }
    if is_outside(limit, MAX_LIMIT) {
        return Err(Refusal::BadLimit(limit));
    }
    if table.len() != size as usize {
        return Err(Refusal::BadLength(size));
    }
    Ok(())
}

// The first node with label 0, where a tree is to be filed.
#[tactic(auto, unfolding(model::specs::Refusals::asked, model::specs::Refusals::no_label, model::specs::Basics::pick))]
fn first_unfiled(table: &[u8], filed: bool) -> Option<u16>
    ensures { result ≡ (asked filed (no_label table.now)).place }
{
    if filed {
        first_to(node_count(table), |v| label_at(table, v) == 0)
    } else {
        None
    }
}

// The first node that outweighs the limit.
#[tactic(auto, unfolding(model::specs::Refusals::heavy_node))]
fn first_heavy(table: &[u8]) -> Option<u16>
    ensures { result ≡ (heavy_node table.now).place }
{
    let limit = limit_of(table);
    first_to(node_count(table), |v| limit < weight_at(table, v))
}

// The refusals 1 to 7 but 5, with 14 or, for trees told by film that may be older, without.
#[tactic(auto, using(crate::proofs::Told::tree_told), unfolding(model::specs::Basics::at_place))]
pub fn check_tree(table: &[u8], filed: bool) -> Result<Tree, Refusal>
    ensures told { tree_told result ≡ tree_answer filed table.now }
    ensures same { IfOk result (λ tree. tree.table.now ≡ table.now) }
{
    read_head(table)?;
    if let Some(v) = first_unfiled(table, filed) {
        return Err(Refusal::NoLabel(v));
    }
    if let Some(met) = walk_place(table) {
        return Err(Refusal::BadWalk(met));
    }
    if let Some(v) = first_heavy(table) {
        return Err(Refusal::HeavyNode(v));
    }
    Ok(Tree { table })
}

// Entry: the tree reader, with the refusals 1 to 7 but 5, and 14. 7 means that no sequence of sibling runs holds the
// tree.
#[tactic(auto, using(theory::specs::JudgeAnswers::with_labels, theory::specs::PromiseWeight::read_weight))]
pub fn read_tree(table: &[u8]) -> Result<Tree, Refusal>
    ensures value { tree_told result ≡ read_tree table.now }
    ensures weight_promise { WeightPromise table.now (tree_told result) }
    ensures same { IfOk result (λ tree. tree.table.now ≡ table.now) }
{
    check_tree(table, true)
}
