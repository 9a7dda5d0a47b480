// The head, the page records and the node records of an archive, put into an output of its length.
ghost use Rattle.std.specs.Prelude.{◌≡◌, ◌+◌, ◌*◌, ◌≤◌, ◌<◌, length, get_or};
ghost use Rattle.model.specs.Table.{node_count, slots};
ghost use Rattle.model.specs.Archive.{next_page, archive_bytes};
ghost use Rattle.theory.specs.Ranges.{Upto};
ghost use Rattle.theory.specs.Put.{RecordsPut};
ghost use Rattle.records.specs.Size.{film_slots};
ghost use Rattle.records.specs.RecordsOf.{put_edition, put_head, put_fifth, page_row, node_row};

use crate::size::{FILM_SLOTS, Format};
use layout::Layout;
use words::put::{put_record, put_word};
use words::read::{label_at, node_count, weight_at};

// The word that tells the second edition.
const EDITION_WORD: u16 = 8194;

// The edition's word, where the head has one before N.
#[tactic(auto, using(crate::proofs::EditionWord::word_put, crate::proofs::EditionWord::word_left))]
fn put_edition(format: Format, out: &mut [u8])
    ensures { out.new ≡ put_edition format.edition out.old }
{
    if 3 < format.edition.head {
        put_word(out, 0, EDITION_WORD);
    }
}

// The head, whose last three words are N, K and P.
#[tactic(auto, unfolding(crate::specs::RecordsOf::put_head))]
pub fn put_head(format: Format, nodes: u16, limit: u16, pages: u16, out: &mut [u8])
    ensures { out.new ≡ put_head format.edition out.old nodes limit pages }
{
    let head = format.edition.head as u32;
    put_edition(format, out);
    put_word(out, head - 3, nodes);
    put_word(out, head - 2, limit);
    put_word(out, head - 1, pages);
}

// The step of the chain: the page after page p, or 0 after the last. It asks for a page that there is, since past the
// last the formula would begin again with 1.
#[tactic(auto, using(crate::specs::RecordsOf::next_page_formula))]
fn page_after(p: u16, pages: u16) -> u16
    requires { (1 ≤ p) × (p ≤ pages) × (pages < slots) }
    ensures { result ≡ next_page p pages }
{
    (p + 1) % (pages + 1)
}

// The fifth word of the page record at a word, where the edition has one.
#[tactic(auto, using(crate::proofs::Tests::tests), unfolding(crate::specs::RecordsOf::put_fifth))]
fn put_fifth(format: Format, out: &mut [u8], at: u32, count: u16)
    requires { at + 4 < 4294967296 }
    ensures { out.new ≡ put_fifth format.edition out.old at count }
{
    if 4 < format.edition.page {
        put_word(out, at + 4, count);
    }
}

// The page records, after the head.
pub fn put_pages(format: Format, layout: &Layout, counts: &[u16; FILM_SLOTS], out: &mut [u8])
    requires { (layout.now.pages < slots) × Upto layout.now.pages (λ p. get_or layout.now.weights p 0 < 65536)
        × (archive_bytes format.edition layout.now.pages 0 ≤ length out.old) }
    ensures { RecordsPut
        (page_row format.edition layout.now.firsts layout.now.lasts layout.now.weights counts.now layout.now.pages)
        format.edition.head layout.now.pages out.old out.new }
{
    let edition = format.edition;
    let pages = layout.pages;
    for p in 1..=pages {
        let at = (edition.head as u32) + (edition.page as u32) * ((p - 1) as u32);
        let first = layout.firsts[p as usize];
        let last = layout.lasts[p as usize];
        let weight = layout.weights[p as usize] as u16;
        let after = page_after(p, pages);
        put_record(out, at, first, last, weight, after);
        put_fifth(format, out, at, counts[p as usize]);
    }
}

// The node records, after the page records.
pub fn put_nodes(
    format: Format,
    table: &[u8],
    layout: &Layout,
    nexts: &[u16; FILM_SLOTS],
    out: &mut [u8],
)
    requires { (node_count table.now < film_slots) × (layout.now.pages < slots)
        × (length out.old ≡ archive_bytes format.edition layout.now.pages (node_count table.now)) }
    ensures { RecordsPut (node_row table.now layout.now.parents nexts.now)
        (format.edition.head + format.edition.page * layout.now.pages) (node_count table.now) out.old out.new }
{
    let edition = format.edition;
    let start = (edition.head as u32) + (edition.page as u32) * (layout.pages as u32);
    for v in 1..=node_count(table) {
        let at = start + 4 * ((v - 1) as u32);
        let weight = weight_at(table, v);
        let label = label_at(table, v);
        let parent = layout.parents[v as usize];
        let after = nexts[v as usize];
        put_record(out, at, weight, label, parent, after);
    }
}
