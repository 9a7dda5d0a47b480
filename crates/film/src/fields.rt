// The words of film of an edition: N, K and P, and the fields of the page records and the node records. What lies past
// the end reads as 0.
ghost use Rattle.std.specs.Prelude.{◌≡◌, ◌+◌, ◌-◌, ◌*◌, ◌<◌};
ghost use Rattle.model.specs.Table.{word_at};
ghost use Rattle.model.specs.Archive.{nodes_in, limit_in, pages_in, page_field_in, node_field_in, parent_in, first_in};

use records::size::Format;
use words::read::word_at;

// The bytes of an archive, or any others, read in an edition.
#[derive(Clone, Copy)]
pub struct Film<'a> {
    pub format: Format,
    pub archive: &'a [u8],
}

impl Film<'_> {
    // N.
    #[tactic(auto, unfolding(model::specs::Archive::nodes_in))]
    pub fn nodes(self) -> u16
        ensures { result ≡ nodes_in self.entry.format.edition self.entry.archive.now }
    {
        word_at(self.archive, (self.format.edition.head as u32) - 3)
    }

    // K.
    #[tactic(auto, unfolding(model::specs::Archive::limit_in))]
    pub fn limit(self) -> u16
        ensures { result ≡ limit_in self.entry.format.edition self.entry.archive.now }
    {
        word_at(self.archive, (self.format.edition.head as u32) - 2)
    }

    // P.
    #[tactic(auto, unfolding(model::specs::Archive::pages_in))]
    pub fn pages(self) -> u16
        ensures { result ≡ pages_in self.entry.format.edition self.entry.archive.now }
    {
        word_at(self.archive, (self.format.edition.head as u32) - 1)
    }

    // Word f of record i, counted from 1, of those of this width after so many words.
    fn field_after(self, words: u32, width: u16, i: u16, f: u8) -> u16
        requires { words + width * 65535 + 255 < 4294967296 }
        ensures { result ≡ word_at self.entry.archive.now (words + width * (i - 1) + f) }
    {
        let before = i.saturating_sub(1);
        word_at(
            self.archive,
            words + (width as u32) * (before as u32) + (f as u32),
        )
    }

    // Word f of page q's record.
    #[tactic(auto, unfolding(model::specs::Archive::page_field_in))]
    pub fn page_field(self, q: u16, f: u8) -> u16
        ensures { result ≡ page_field_in self.entry.format.edition self.entry.archive.now q f }
    {
        let edition = self.format.edition;
        self.field_after(edition.head as u32, edition.page, q, f)
    }

    // Word f of node v's record.
    #[tactic(auto, unfolding(model::specs::Archive::node_field_in))]
    pub fn node_field(self, v: u16, f: u8) -> u16
        ensures { result ≡ node_field_in self.entry.format.edition self.entry.archive.now v f }
    {
        let edition = self.format.edition;
        let words = (edition.head as u32) + (edition.page as u32) * (self.pages() as u32);
        self.field_after(words, 4, v, f)
    }

    #[tactic(auto, unfolding(model::specs::Archive::parent_in))]
    pub fn parent(self, v: u16) -> u16
        ensures { result ≡ parent_in self.entry.format.edition self.entry.archive.now v }
    {
        self.node_field(v, 2)
    }

    // Node v's first child is the node after it, if that has v for its parent; 0 says that it has none, as in a table.
    #[tactic(auto, using(crate::proofs::Tests::tests), unfolding(model::specs::Archive::first_in))]
    pub fn first_child(self, v: u16) -> u16
        ensures { result ≡ first_in self.entry.format.edition self.entry.archive.now v }
    {
        if v < self.nodes() && self.parent(v + 1) == v {
            v + 1
        } else {
            0
        }
    }
}
