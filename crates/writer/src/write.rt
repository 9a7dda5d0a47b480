// The archive's writer. It judges the plan, and puts head, page records and node records of the layout that the judge
// found.
ghost use Rattle.std.specs.Prelude.{◌≡◌, ◌≤◌, length};
ghost use Rattle.model.specs.Table.{node_count};
ghost use Rattle.model.specs.Archive.{first_edition, second_edition, archive_of, archive_bytes};
ghost use Rattle.model.specs.Refusals.{outcome, plan_told, write_by, write_archive};
ghost use Rattle.model.specs.Demand.{WritePromise};
ghost use Rattle.layout.specs.Rows.{FeasibleLayout};

use judge::judge_pages;
use layout::Layout;
use model::{PlanSize, Refusal};
use records::counts::count_nodes;
use records::links::link_next;
use records::records::{put_head, put_nodes, put_pages};
use records::size::{FILM_SLOTS, Format};
use words::read::{limit_of, node_count};

// The whole archive of an accepted tree and a feasible plan, into an output of its length.
fn fill_archive(format: Format, table: &[u8], marks: &[u8], layout: &Layout, out: &mut [u8])
    requires { FeasibleLayout table.now marks.now layout.now
        × (node_count table.now ≤ format.edition.most)
        × (length out.old ≡ archive_bytes format.edition layout.now.pages (node_count table.now)) }
    ensures { out.new ≡ archive_of format.edition table.now marks.now }
{
    let nodes = node_count(table);
    let mut counts = [0u16; FILM_SLOTS];
    count_nodes(format.edition, &layout.page, nodes, &mut counts);
    let nexts = link_next(&layout.page, nodes);
    put_head(format, nodes, limit_of(table), layout.pages, out);
    put_pages(format, layout, &counts, out);
    put_nodes(format, table, layout, &nexts, out);
}

// The writer of an edition. It refuses 14 where `filed`, as its entries ask; the reader holds older film against it
// without.
pub fn write_edition(
    format: Format,
    filed: bool,
    table: &[u8],
    marks: &[u8],
    out: &mut [u8],
) -> Result<PlanSize, Refusal>
    ensures { outcome (plan_told result) out.new
        ≡ write_by (record { filed = filed }) format.edition table.now marks.now out.old }
{
    let mut layout = Layout::cleared();
    let verdict = judge_pages(filed, table, marks, &mut layout)?;
    let size = verdict.feasible()?;
    let nodes = node_count(table);
    if format.edition.most < nodes {
        return Err(Refusal::ManyNodes(nodes));
    }
    let bytes = format.archive_bytes(layout.pages, nodes);
    if out.len() != bytes as usize {
        return Err(Refusal::BadOutput(bytes));
    }
    fill_archive(format, table, marks, &layout, out);
    Ok(size)
}

// Entry: the archive writer. The refusals of the judge, 15 and 12. Any feasible plan is written, and the archive of a
// best one is the lowest there is.
pub fn write_archive(table: &[u8], marks: &[u8], out: &mut [u8]) -> Result<PlanSize, Refusal>
    ensures out_after { outcome (plan_told result) out.new
        ≡ write_archive first_edition table.now marks.now out.old }
    ensures write_promise { WritePromise first_edition table.now marks.now out.old
        (plan_told result) out.new }
{
    write_edition(Format::first(), true, table, marks, out)
}

// Entry: the writer of edition 2. The refusals of the judge, and 12: it takes as many nodes as a table has.
pub fn write_archive2(table: &[u8], marks: &[u8], out: &mut [u8]) -> Result<PlanSize, Refusal>
    ensures out_after { outcome (plan_told result) out.new
        ≡ write_archive second_edition table.now marks.now out.old }
    ensures write_promise { WritePromise second_edition table.now marks.now out.old
        (plan_told result) out.new }
{
    write_edition(Format::second(), true, table, marks, out)
}
