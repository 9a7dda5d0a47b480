// The archive's reader: what the film tells, copied out.
ghost use Rattle.std.specs.Prelude.{◌≡◌, ◌+◌, ◌≤◌, length};
ghost use Rattle.model.specs.Archive.{first_edition, second_edition};
ghost use Rattle.model.specs.Refusals.{read_left, plan_told, read_archive};
ghost use Rattle.model.specs.Demand.{ReadPromise};
ghost use Rattle.archive.specs.Room.{Room};

use crate::opened::{FIRST_PLAN, SECOND_PLAN, open_film};
use film::Film;
use model::{PlanSize, Refusal};
use records::size::{FIRST_BYTES, FIRST_TABLE, Format, SECOND_BYTES, SECOND_TABLE};

// A string of bytes over another of its length. By a loop: with `copy_from_slice` the library would take `memmove` from
// the C library, and it takes `memcpy` and `memset` only.
fn copy_bytes(from: &[u8], to: &mut [u8])
    requires { length to.old ≡ length from.now }
    ensures { to.new ≡ from.now }
{
    for i in 0..from.len() {
        to[i] = from[i];
    }
}

// The reader of an edition: 13, then 12, then 8. It has room for film in its edition's size, so that no edition pays
// for a larger one.
fn read_edition<const TABLE: usize, const PLAN: usize, const BYTES: usize>(
    format: Format,
    archive: &[u8],
    table: &mut [u8],
    marks: &mut [u8],
) -> Result<PlanSize, Refusal>
    requires room { Room format.edition TABLE PLAN BYTES }
    requires small { TABLE + PLAN + BYTES ≤ 65536 }
    ensures { read_left (plan_told result) table.new marks.new
        ≡ read_archive format.edition archive.now table.old marks.old }
{
    let mut tree = [0u8; TABLE];
    let mut plan = [0u8; PLAN];
    let mut copy = [0u8; BYTES];
    let film = Film { format, archive };
    let told = open_film(film, &mut tree, &mut plan, &mut copy)?;
    if table.len() != told.table.len() {
        return Err(Refusal::BadOutput(told.table.len() as u32));
    }
    if marks.len() != told.marks.len() {
        return Err(Refusal::BadMarks(told.marks.len() as u16));
    }
    copy_bytes(told.table, table);
    copy_bytes(told.marks, marks);
    Ok(told.size)
}

// Entry: the archive reader. What was written reads back, and what is read is what writing gives, but that film may
// have labels 0, which are not written again.
pub fn read_archive(archive: &[u8], table: &mut [u8], marks: &mut [u8]) -> Result<PlanSize, Refusal>
    ensures marks_after { read_left (plan_told result) table.new marks.new
        ≡ read_archive first_edition archive.now table.old marks.old }
    ensures read_promise { ReadPromise first_edition second_edition archive.now table.old
        marks.old (plan_told result) table.new marks.new }
{
    read_edition::<FIRST_TABLE, FIRST_PLAN, FIRST_BYTES>(Format::first(), archive, table, marks)
}

// Entry: the reader of edition 2, which has no label 0.
pub fn read_archive2(
    archive: &[u8],
    table: &mut [u8],
    marks: &mut [u8],
) -> Result<PlanSize, Refusal>
    ensures marks_after { read_left (plan_told result) table.new marks.new
        ≡ read_archive second_edition archive.now table.old marks.old }
    ensures read_promise { ReadPromise second_edition first_edition archive.now table.old
        marks.old (plan_told result) table.new marks.new }
{
    read_edition::<SECOND_TABLE, SECOND_PLAN, SECOND_BYTES>(Format::second(), archive, table, marks)
}
