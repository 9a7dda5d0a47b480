// The judge of plans: its verdict, with the layout that it comes from. The tree's refusals, 8, 10 and 11.
#![tactic(auto)]

mod heavy;

ghost use Rattle.std.specs.Prelude.{◌≡◌, IfOk};
ghost use Rattle.model.specs.Plan.{verdict_of};
ghost use Rattle.model.specs.Refusals.{judge_by, judge_plan, tree_told, verdict_told};
ghost use Rattle.model.specs.Demand.{JudgePromise};
ghost use Rattle.layout.specs.Rows.{Cleared, IsLayout};
ghost use Rattle.judge.specs.Judging.{BeforePlan, LaidBeside};

use heavy::first_heavy;
use layout::{Layout, lay_pages};
use model::{Cause, Refusal, Verdict};
use table::{Tree, check_tree};
use words::read::{limit_of, node_count};

// The verdict of a plan of an accepted tree, with its layout: a bad mark before a heavy page.
pub fn judge_made(tree: Tree, marks: &[u8], layout: &mut Layout) -> Verdict
    requires { Cleared layout.old }
    ensures value { result ≡ verdict_of tree.entry.table.now marks.now }
    ensures layout { IsLayout tree.entry.table.now marks.now layout.new }
{
    let bad = lay_pages(tree, marks, layout);
    let heavy = first_heavy(layout, limit_of(tree.table));
    match (bad, heavy) {
        (Some(node), _) => Verdict::Failed(Cause::BadMark(node as u32)),
        (None, Some(page)) => Verdict::Failed(Cause::HeavyPage(page as u32)),
        (None, None) => Verdict::Feasible {
            pages: layout.pages as u32,
            root: layout.weights[1],
        },
    }
}

// The same, for whoever wants the verdict alone.
pub fn judge_answer(tree: Tree, marks: &[u8]) -> Verdict
    ensures { result ≡ verdict_of tree.entry.table.now marks.now }
{
    let mut layout = Layout::cleared();
    judge_made(tree, marks, &mut layout)
}

// What is refused before any plan is laid: the tree, with 14 where `filed`, since older film may have labels 0; and 8.
fn check_given<'a>(filed: bool, table: &'a [u8], marks: &[u8]) -> Result<Tree<'a>, Refusal>
    ensures told { BeforePlan filed table.now marks.now (tree_told result) }
    ensures same { IfOk result (λ tree. tree.table.now ≡ table.now) }
{
    let tree = check_tree(table, filed)?;
    let nodes = node_count(table);
    if marks.len() != nodes as usize {
        return Err(Refusal::BadMarks(nodes));
    }
    Ok(tree)
}

// The judge, with 14 where `filed`. The layout of a plan that it gives a verdict is left in one that is lent, since it
// is large, and whoever writes, prints or prices goes on with it.
pub fn judge_pages(
    filed: bool,
    table: &[u8],
    marks: &[u8],
    layout: &mut Layout,
) -> Result<Verdict, Refusal>
    requires { Cleared layout.old }
    ensures answer_value { verdict_told result ≡ judge_by (record { filed = filed }) table.now marks.now }
    ensures laid_beside { LaidBeside filed table.now marks.now (verdict_told result) layout.new }
{
    let tree = check_given(filed, table, marks)?;
    Ok(judge_made(tree, marks, layout))
}

// Entry: the judge of plans.
pub fn judge_plan(table: &[u8], marks: &[u8]) -> Result<Verdict, Refusal>
    ensures value { verdict_told result ≡ judge_plan table.now marks.now }
    ensures judge_promise { JudgePromise table.now marks.now (verdict_told result) }
{
    let tree = check_given(true, table, marks)?;
    Ok(judge_answer(tree, marks))
}
