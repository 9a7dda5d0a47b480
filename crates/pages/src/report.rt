// The report of a table: its best plan is made and laid on its pages, and the lines are those of this layout.
ghost use Rattle.std.specs.Prelude.{◌≡◌, ◌≤◌, []};
ghost use Rattle.model.specs.Table.{max_nodes};
ghost use Rattle.model.specs.Refusals.{plan_best};
ghost use Rattle.pages.specs.Text.{answer_lines, report_of};
ghost use Rattle.pages.specs.Listing.{layout_lines};
ghost use Rattle.pages.specs.Written.{written};

use crate::lines::Lines;
use layout::Layout;
use planner::{Planner, make_laid};
use words::read::{limit_of, node_count};

// As many marks as a word can ask for: N may be anything until it is checked.
const MARKS: usize = 65535;

// Serves N × (K + 3) up to 2,560.
const SCRATCH_WORDS: usize = 10240;

// The lines of a plan, from its layout and the limit.
fn list_pages(layout: &Layout, limit: u16, lines: &mut Lines)
    requires few { layout.now.pages ≤ max_nodes }
    requires empty { written lines.old ≡ [] }
    requires unused { lines.old.used ≡ 0 }
    ensures { written lines.new ≡ layout_lines layout.now limit }
{
    lines.put_head(layout.pages as u32, layout.weights[1], limit as u32);
    for p in 1..=layout.pages {
        let i = p as usize;
        lines.put_page(p, layout.firsts[i], layout.lasts[i], layout.weights[i]);
    }
}

// The lines of the best plan, or of its refusal, with these marks and this scratch lent.
fn report_plan(table: &[u8], marks: &mut [u8], scratch: &mut [u32], lines: &mut Lines)
    requires empty { written lines.old ≡ [] }
    requires unused { lines.old.used ≡ 0 }
    ensures { written lines.new
        ≡ answer_lines table.now (plan_best table.now marks.old scratch.old) }
{
    let mut layout = Layout::cleared();
    match make_laid(Planner::Best, table, marks, scratch, &mut layout) {
        Ok(_) => list_pages(&layout, limit_of(table), lines),
        Err(refusal) => lines.put_refusal(refusal),
    }
}

// All that the program writes for a table, in lines that are lent, since they are large: by value they were copied at
// every step.
pub fn report(table: &[u8], lines: &mut Lines)
    ensures { written lines.new ≡ report_of table.now }
{
    let nodes = node_count(table) as usize;
    let mut marks = [0u8; MARKS];
    let mut scratch = [0u32; SCRATCH_WORDS];
    lines.clear();
    report_plan(table, &mut marks[..nodes], &mut scratch, lines);
}
