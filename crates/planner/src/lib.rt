// The planners: each refuses, or lays its plan, clears the scratch and answers with the judge.
#![tactic(auto)]

ghost use Rattle.std.specs.Prelude.{◌≡◌, length, replicate, IfOk, OnOk, OnErr};
ghost use Rattle.model.specs.Table.{limit_of, tree_of};
ghost use Rattle.model.specs.Refusals.{plan_checks, first_of, accepted, tree_told, plan_told, plan_left, planned};
ghost use Rattle.model.specs.Refusals.{plan_best, plan_level, plan_single, plan_pair, plan_rightmost, plan_depth_first};
ghost use Rattle.model.specs.Demand.{PlanPromise, BestPromise, QuickPromise};
ghost use Rattle.layout.specs.Rows.{Cleared, FeasibleLayout};
ghost use Rattle.planner.specs.Planners.{steps_of, PlanReady};

use best::lay_best;
use greedy::pair::lay_pair;
use greedy::single::lay_single;
use judge::{judge_answer, judge_made};
use layout::Layout;
use model::{PlanSize, Refusal};
use quick::depth_first::lay_depth_first;
use quick::rightmost::lay_rightmost;
use table::{Tree, read_tree};
use words::read::{limit_of, node_count};

// Whose steps make the plan: one for each entry, and no other.
#[derive(Clone, Copy, Debug, PartialEq, Eq)]
pub enum Planner {
    Best,
    Level,
    Single,
    Pair,
    Rightmost,
    DepthFirst,
}

// The tree's refusals, 8 and 9.
#[tactic(auto, using(crate::proofs::Planning::checking))]
fn check_plan<'a>(table: &'a [u8], marks: &[u8], scratch: &[u32]) -> Result<Tree<'a>, Refusal>
    ensures told { tree_told result
        ≡ first_of (plan_checks table.now marks.now scratch.now) accepted }
    ensures same { IfOk result (λ tree. tree.table.now ≡ table.now) }
{
    let tree = read_tree(table)?;
    let nodes = node_count(table);
    let words = 4 * (nodes as u32) * ((limit_of(table) as u32) + 3);
    if marks.len() != nodes as usize {
        return Err(Refusal::BadMarks(nodes));
    }
    if scratch.len() < words as usize {
        return Err(Refusal::ShortScratch(words));
    }
    Ok(tree)
}

// The marks of an accepted tree.
#[tactic(auto, unfolding(model::specs::Steps::best_marks, model::specs::Steps::level_marks))]
fn lay_steps(planner: Planner, tree: Tree, marks: &mut [u8], scratch: &mut [u32])
    requires { PlanReady tree.table.now marks.old scratch.old }
    ensures { marks.new
        ≡ steps_of planner (limit_of tree.entry.table.now) (tree_of tree.entry.table.now) }
{
    match planner {
        Planner::Best => lay_best(tree, true, marks, scratch),
        Planner::Level => lay_best(tree, false, marks, scratch),
        Planner::Single => lay_single(tree, marks, scratch),
        Planner::Pair => lay_pair(tree, marks, scratch),
        Planner::Rightmost => lay_rightmost(tree, marks),
        Planner::DepthFirst => lay_depth_first(tree, marks),
    }
}

// Refuses, or lays the marks and clears the scratch: there is no verdict yet.
#[tactic(auto, using(crate::proofs::Planning::plan_ready))]
fn make_marks<'a>(
    planner: Planner,
    table: &'a [u8],
    marks: &mut [u8],
    scratch: &mut [u32],
) -> Result<Tree<'a>, Refusal>
    ensures told { tree_told result
        ≡ first_of (plan_checks table.now marks.old scratch.old) accepted }
    ensures laid { OnOk result ((marks.new ≡ steps_of planner (limit_of table.now) (tree_of table.now))
        × (scratch.new ≡ replicate (length scratch.old) 0)) }
    ensures kept { OnErr result ((marks.new ≡ marks.old) × (scratch.new ≡ scratch.old)) }
    ensures same { IfOk result (λ tree. tree.table.now ≡ table.now) }
{
    let tree = check_plan(table, marks, scratch)?;
    lay_steps(planner, tree, marks, scratch);
    scratch.fill(0);
    Ok(tree)
}

// What every entry does: it makes the plan, and goes on with the judge. Whatever the planner, its plan is not below
// best's, as the quick ones promise.
#[tactic(auto, using(crate::proofs::Planning::planning))]
fn make_plan(
    planner: Planner,
    table: &[u8],
    marks: &mut [u8],
    scratch: &mut [u32],
) -> Result<PlanSize, Refusal>
    ensures scratch_after { plan_left (plan_told result) marks.new scratch.new
        ≡ planned (steps_of planner) table.now marks.old scratch.old }
    ensures plan_promise { PlanPromise table.now marks.old scratch.old
        (plan_told result) marks.new scratch.new }
    ensures quick_promise { QuickPromise table.now (plan_told result) }
{
    let tree = make_marks(planner, table, marks, scratch)?;
    judge_answer(tree, marks).feasible()
}

// The same, with the layout of the plan left in one that is lent, for whoever goes on with it.
#[tactic(auto, using(crate::proofs::Planning::planning, layout::specs::Rows::feasible_layout))]
pub fn make_laid(
    planner: Planner,
    table: &[u8],
    marks: &mut [u8],
    scratch: &mut [u32],
    layout: &mut Layout,
) -> Result<PlanSize, Refusal>
    requires { Cleared layout.old }
    ensures scratch_after { plan_left (plan_told result) marks.new scratch.new
        ≡ planned (steps_of planner) table.now marks.old scratch.old }
    ensures feasible_layout { OnOk result (FeasibleLayout table.now marks.new layout.new) }
{
    let tree = make_marks(planner, table, marks, scratch)?;
    judge_made(tree, marks, layout).feasible()
}

// The entries stand one by one, each with the promise that its door in C gives.

// Entry: the best planner. Its plan is the lowest there is, and 7 means that there is none.
#[tactic(auto, using(crate::proofs::Planning::best_promised))]
pub fn plan_best(table: &[u8], marks: &mut [u8], scratch: &mut [u32]) -> Result<PlanSize, Refusal>
    ensures scratch_after { plan_left (plan_told result) marks.new scratch.new
        ≡ plan_best table.now marks.old scratch.old }
    ensures plan_promise { PlanPromise table.now marks.old scratch.old
        (plan_told result) marks.new scratch.new }
    ensures best_promise { BestPromise table.now marks.old scratch.old
        (plan_told result) marks.new }
{
    make_plan(Planner::Best, table, marks, scratch)
}

// Entry: the level planner.
pub fn plan_level(table: &[u8], marks: &mut [u8], scratch: &mut [u32]) -> Result<PlanSize, Refusal>
    ensures scratch_after { plan_left (plan_told result) marks.new scratch.new
        ≡ plan_level table.now marks.old scratch.old }
    ensures plan_promise { PlanPromise table.now marks.old scratch.old
        (plan_told result) marks.new scratch.new }
{
    make_plan(Planner::Level, table, marks, scratch)
}

// Entry: the single planner.
pub fn plan_single(table: &[u8], marks: &mut [u8], scratch: &mut [u32]) -> Result<PlanSize, Refusal>
    ensures scratch_after { plan_left (plan_told result) marks.new scratch.new
        ≡ plan_single table.now marks.old scratch.old }
    ensures plan_promise { PlanPromise table.now marks.old scratch.old
        (plan_told result) marks.new scratch.new }
{
    make_plan(Planner::Single, table, marks, scratch)
}

// Entry: the pair planner.
pub fn plan_pair(table: &[u8], marks: &mut [u8], scratch: &mut [u32]) -> Result<PlanSize, Refusal>
    ensures scratch_after { plan_left (plan_told result) marks.new scratch.new
        ≡ plan_pair table.now marks.old scratch.old }
    ensures plan_promise { PlanPromise table.now marks.old scratch.old
        (plan_told result) marks.new scratch.new }
{
    make_plan(Planner::Pair, table, marks, scratch)
}

// Entry: the rightmost planner, one of the two quick ones. Its plan never has fewer pages than best's.
pub fn plan_rightmost(
    table: &[u8],
    marks: &mut [u8],
    scratch: &mut [u32],
) -> Result<PlanSize, Refusal>
    ensures scratch_after { plan_left (plan_told result) marks.new scratch.new
        ≡ plan_rightmost table.now marks.old scratch.old }
    ensures plan_promise { PlanPromise table.now marks.old scratch.old
        (plan_told result) marks.new scratch.new }
    ensures quick_promise { QuickPromise table.now (plan_told result) }
{
    make_plan(Planner::Rightmost, table, marks, scratch)
}

// Entry: the depth-first planner, the other quick one, with the same promise.
pub fn plan_depth_first(
    table: &[u8],
    marks: &mut [u8],
    scratch: &mut [u32],
) -> Result<PlanSize, Refusal>
    ensures scratch_after { plan_left (plan_told result) marks.new scratch.new
        ≡ plan_depth_first table.now marks.old scratch.old }
    ensures plan_promise { PlanPromise table.now marks.old scratch.old
        (plan_told result) marks.new scratch.new }
    ensures quick_promise { QuickPromise table.now (plan_told result) }
{
    make_plan(Planner::DepthFirst, table, marks, scratch)
}
