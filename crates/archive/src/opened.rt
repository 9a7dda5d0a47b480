// Film that is opened: what it tells, where it is film of its edition.
ghost use Rattle.std.specs.Prelude.{◌≡◌, false, length, IfOk, IfErr, Ok};
ghost use Rattle.model.specs.Refusals.{refused, refusal_answer, plan_told, is_archive};
ghost use Rattle.archive.specs.Room.{Room};
ghost use Rattle.archive.specs.Opened.{Opened};

use crate::judged::judge_film;
use film::Film;
use film::decode::decode;
use model::{PlanSize, Refusal};
use records::size::{FIRST_NODES, SECOND_NODES};
use table::table_bytes;

// The longest plan that an archive tells, of document 01's and of edition 2's.
pub const FIRST_PLAN: usize = FIRST_NODES as usize;

pub const SECOND_PLAN: usize = SECOND_NODES as usize;

// The table and the marks that film tells, with the size of the plan.
#[derive(Clone, Copy)]
pub struct Contents<'a> {
    pub table: &'a [u8],
    pub marks: &'a [u8],
    pub size: PlanSize,
}

// Film, decoded into what is lent and held against its archive; or 13.
pub fn open_film<'a>(
    film: Film,
    tree: &'a mut [u8],
    plan: &'a mut [u8],
    copy: &mut [u8],
) -> Result<Contents<'a>, Refusal>
    requires { Room film.format.edition (length tree.old) (length plan.old) (length copy.old) }
    ensures opened { IfOk result (λ told. Opened film.entry.format.edition film.entry.archive.now
        told.table.now told.marks.now (plan_told (Ok told.size))) }
    ensures refused { IfErr result (λ why. (refusal_answer why ≡ refused 13 0)
        × (is_archive film.entry.format.edition film.entry.archive.now ≡ false)) }
{
    decode(film, tree, plan);
    let size = judge_film(film, tree, plan, copy)?;
    let nodes = film.nodes();
    let bytes = table_bytes(nodes) as usize;
    Ok(Contents {
        table: &tree[..bytes],
        marks: &plan[..nodes as usize],
        size,
    })
}
