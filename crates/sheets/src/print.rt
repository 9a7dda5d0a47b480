// The entry. It judges the plan, and prints the pages of the layout that the judge found.
ghost use Rattle.std.specs.Prelude.{◌≡◌, ◌*◌, length};
ghost use Rattle.model.specs.Sheets.{sheet_bytes, sheet_count, sheets_of};
ghost use Rattle.model.specs.Refusals.{outcome, plan_told, print_sheets};
ghost use Rattle.model.specs.Demand.{PrintPromise};
ghost use Rattle.layout.specs.Rows.{FeasibleLayout};

use crate::sheet::{Printed, sheet_bytes};
use judge::judge_pages;
use layout::Layout;
use model::{PlanSize, Refusal};
use words::read::limit_of;

// The sheets of a feasible plan, into an output of their length.
#[tactic(auto, using(crate::specs::LayoutSheets::layout_sheets))]
fn fill_sheets(table: &[u8], marks: &[u8], layout: &Layout, out: &mut [u8])
    requires { FeasibleLayout table.now marks.now layout.now
        × (length out.old ≡ sheet_bytes * sheet_count layout.now.pages) }
    ensures { out.new ≡ sheets_of table.now marks.now }
{
    let printed = Printed {
        layout,
        limit: limit_of(table),
    };
    printed.put_sheets(out);
}

// Entry: the printer of leader sheets. The refusals of the judge, and 12. Any feasible plan is printed.
pub fn print_sheets(table: &[u8], marks: &[u8], out: &mut [u8]) -> Result<PlanSize, Refusal>
    ensures out_after { outcome (plan_told result) out.new
        ≡ print_sheets table.now marks.now out.old }
    ensures print_promise { PrintPromise table.now marks.now out.old
        (plan_told result) out.new }
{
    let mut layout = Layout::cleared();
    let size = judge_pages(true, table, marks, &mut layout)?.feasible()?;
    let bytes = sheet_bytes(layout.pages);
    if out.len() != bytes as usize {
        return Err(Refusal::BadOutput(bytes));
    }
    fill_sheets(table, marks, &layout, out);
    Ok(size)
}
