// The entry that gives the saving. It makes and judges both plans, each once, and prices them by their layouts, the
// best one last, since its marks are left.
ghost use Rattle.std.specs.Prelude.{◌≡◌, ◌<◌, ◌^◌, IfOk};
ghost use Rattle.model.specs.Prices.{total_cents};
ghost use Rattle.model.specs.Refusals.{plan_left, price_told, planned, saving_told, save_best};
ghost use Rattle.model.specs.Demand.{SavingPromise};
ghost use Rattle.planner.specs.Planners.{steps_of};

use crate::prices::price_of;
use layout::Layout;
use model::{Price, Refusal, Saving};
use planner::{Planner, make_laid};
use words::read::limit_of;

// A planner's plan with its price.
#[tactic(auto, using(crate::proofs::LayoutTotal::layout_total))]
fn plan_priced(
    planner: Planner,
    table: &[u8],
    marks: &mut [u8],
    scratch: &mut [u32],
) -> Result<Price, Refusal>
    ensures scratch_after { plan_left (price_told result).answer marks.new scratch.new
        ≡ planned (steps_of planner) table.now marks.old scratch.old }
    ensures cents_value { IfOk result (λ price. price.cents ≡ total_cents table.now marks.new) }
    ensures fits { IfOk result (λ price. price.cents < 2 ^ 31) }
{
    let mut layout = Layout::cleared();
    let plan = make_laid(planner, table, marks, scratch, &mut layout)?;
    Ok(price_of(plan, &layout, limit_of(table)))
}

// Entry: single total less best total. The buffers and refusals of a planner; the best plan is left in the marks.
pub fn saving(table: &[u8], marks: &mut [u8], scratch: &mut [u32]) -> Result<Saving, Refusal>
    ensures saving_after { saving_told result marks.new scratch.new
        ≡ save_best table.now marks.old scratch.old }
    ensures saving_promise { SavingPromise table.now marks.old scratch.old
        (saving_told result marks.new scratch.new).answer
        (saving_told result marks.new scratch.new).left.saving marks.new scratch.new }
{
    let single = plan_priced(Planner::Single, table, marks, scratch)?;
    let best = plan_priced(Planner::Best, table, marks, scratch)?;
    Ok(Saving {
        plan: best.plan,
        saving: (single.cents as i32) - (best.cents as i32),
    })
}
