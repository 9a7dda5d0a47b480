// Whether film of an edition is one. The writer that such film is held against writes the tree and the plan that were
// decoded of it, and the film is one where that gives the very same bytes.
ghost use Rattle.std.specs.Prelude.{◌≤◌, length};
ghost use Rattle.model.specs.Archive.{nodes_in};
ghost use Rattle.model.specs.Refusals.{plan_told};
ghost use Rattle.records.specs.Size.{longest_archive};
ghost use Rattle.archive.specs.Room.{Room};
ghost use Rattle.film.specs.Decoded.{Decoded};
ghost use Rattle.archive.specs.Answers.{CopyJudged, Told};

use film::Film;
use model::{PlanSize, Refusal};
use table::table_bytes;
use writer::write::write_edition;

// The answer of the writer that film is held against, where it writes this archive of the tree and the plan, and else
// 13.
fn judge_copy(film: Film, tree: &[u8], plan: &[u8], copy: &mut [u8]) -> Result<PlanSize, Refusal>
    requires { (nodes_in film.format.edition film.archive.now ≤ film.format.edition.most)
        × (longest_archive film.format.edition ≤ length copy.old) }
    ensures { CopyJudged film.entry.format.edition film.entry.archive.now tree.now plan.now (plan_told result) }
{
    let Film { format, archive } = film;
    if copy.len() < archive.len() {
        return Err(Refusal::NoArchive);
    }
    let copy = &mut copy[..archive.len()];
    let Ok(size) = write_edition(format, format.edition.filed, tree, plan, copy) else {
        return Err(Refusal::NoArchive);
    };
    if *copy == *archive {
        Ok(size)
    } else {
        Err(Refusal::NoArchive)
    }
}

// The verdict of the tree and the plan that were decoded of film, at the start of what was lent for them; or 13.
pub fn judge_film(
    film: Film,
    tree: &[u8],
    plan: &[u8],
    copy: &mut [u8],
) -> Result<PlanSize, Refusal>
    requires { Room film.format.edition (length tree.now) (length plan.now) (length copy.old)
        × Decoded film.format.edition film.archive.now tree.now plan.now }
    ensures { Told film.entry.format.edition film.entry.archive.now tree.now plan.now (plan_told result) }
{
    let nodes = film.nodes();
    if film.format.edition.most < nodes {
        return Err(Refusal::NoArchive);
    }
    let count = nodes as usize;
    let bytes = table_bytes(nodes) as usize;
    judge_copy(film, &tree[..bytes], &plan[..count], copy)
}
