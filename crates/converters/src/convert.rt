// From film of one edition to film of the other: the tree and the plan that the one tells, written in the other.
ghost use Rattle.std.specs.Prelude.{◌≡◌, ◌+◌, ◌≤◌};
ghost use Rattle.model.specs.Archive.{first_edition, second_edition};
ghost use Rattle.model.specs.Refusals.{outcome, plan_told, convert_archive};
ghost use Rattle.model.specs.Demand.{ConvertPromise};
ghost use Rattle.archive.specs.Room.{Room};

use archive::opened::{FIRST_PLAN, SECOND_PLAN, open_film};
use film::Film;
use model::{PlanSize, Refusal};
use records::size::{FIRST_BYTES, FIRST_TABLE, Format, SECOND_BYTES, SECOND_TABLE};
use writer::write::write_edition;

// The converter from one edition to another: 13, then what the other's writer refuses in film that was read, 14, 15 and
// 12. It has room for film of the one in its size.
#[tactic(auto, using(crate::proofs::Converting::convert_refused))]
fn convert_edition<const TABLE: usize, const PLAN: usize, const BYTES: usize>(
    from: Format,
    to: Format,
    archive: &[u8],
    out: &mut [u8],
) -> Result<PlanSize, Refusal>
    requires room { Room from.edition TABLE PLAN BYTES }
    requires small { TABLE + PLAN + BYTES ≤ 65536 }
    ensures { outcome (plan_told result) out.new ≡ convert_archive from.edition to.edition archive.now out.old }
{
    let mut tree = [0u8; TABLE];
    let mut plan = [0u8; PLAN];
    let mut copy = [0u8; BYTES];
    let film = Film {
        format: from,
        archive,
    };
    let told = open_film(film, &mut tree, &mut plan, &mut copy)?;
    write_edition(to, true, told.table, told.marks, out)
}

// Entry: the converter from the archive of document 01 to edition 2. 13, 14 and 12.
pub fn convert_to_2(archive: &[u8], out: &mut [u8]) -> Result<PlanSize, Refusal>
    ensures out_after { outcome (plan_told result) out.new
        ≡ convert_archive first_edition second_edition archive.now out.old }
    ensures convert_promise { ConvertPromise first_edition second_edition archive.now out.old
        (plan_told result) out.new }
{
    convert_edition::<FIRST_TABLE, FIRST_PLAN, FIRST_BYTES>(
        Format::first(),
        Format::second(),
        archive,
        out,
    )
}

// Entry: the converter back, from edition 2 to the archive of document 01. 13, 15 and 12.
pub fn convert_to_1(archive: &[u8], out: &mut [u8]) -> Result<PlanSize, Refusal>
    ensures out_after { outcome (plan_told result) out.new
        ≡ convert_archive second_edition first_edition archive.now out.old }
    ensures convert_promise { ConvertPromise second_edition first_edition archive.now out.old
        (plan_told result) out.new }
{
    convert_edition::<SECOND_TABLE, SECOND_PLAN, SECOND_BYTES>(
        Format::second(),
        Format::first(),
        archive,
        out,
    )
}
