// The entry that prices a plan. It judges the plan, and adds up the pages of the layout that the judge found.
ghost use Rattle.std.specs.Prelude.{◌≡◌};
ghost use Rattle.model.specs.Refusals.{price_told, price_plan};
ghost use Rattle.model.specs.Demand.{PricePromise};

use crate::prices::price_of;
use judge::judge_pages;
use layout::Layout;
use model::{Price, Refusal};
use words::read::limit_of;

// Entry: the price of a plan. The refusals of the judge. Any feasible plan has its price.
pub fn price(table: &[u8], marks: &[u8]) -> Result<Price, Refusal>
    ensures cents_value { price_told result ≡ price_plan table.now marks.now }
    ensures price_promise { PricePromise table.now marks.now (price_told result).answer (price_told result).left }
{
    let mut layout = Layout::cleared();
    let verdict = judge_pages(true, table, marks, &mut layout)?;
    let plan = verdict.feasible()?;
    Ok(price_of(plan, &layout, limit_of(table)))
}
