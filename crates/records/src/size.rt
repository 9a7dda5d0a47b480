// The editions of the archive, and how large an archive is.
ghost use Rattle.std.specs.Prelude.{◌≡◌};
ghost use Rattle.model.specs.Archive.{first_edition, second_edition, archive_bytes};
ghost use Rattle.records.specs.Size.{InRoom};

use model::Edition;

// The most nodes of the archive of document 01, by which film decks size their memory, and of edition 2's.
pub const FIRST_NODES: u16 = 1024;

pub const SECOND_NODES: u16 = 2048;

// The longest archive, and the longest table that it tells, of document 01's and of edition 2's.
pub const FIRST_BYTES: usize = 6 + 16 * (FIRST_NODES as usize);

pub const FIRST_TABLE: usize = 4 + 8 * (FIRST_NODES as usize);

pub const SECOND_BYTES: usize = 8 + 18 * (SECOND_NODES as usize);

pub const SECOND_TABLE: usize = 4 + 8 * (SECOND_NODES as usize);

// A place for each node or page of an archive by number, and one for 0, in whichever edition.
pub const FILM_SLOTS: usize = (SECOND_NODES as usize) + 1;

// An edition that there is room for.
#[derive(Clone, Copy)]
pub struct Format {
    pub edition: Edition,
    ghost in_room: { InRoom edition },
}

impl Format {
    // That of document 01.
    #[tactic(auto, using(crate::specs::Size::first_room))]
    pub fn first() -> Format
        ensures { result.edition ≡ first_edition }
    {
        Format {
            edition: Edition {
                head: 3,
                page: 4,
                most: FIRST_NODES,
                filed: false,
            },
        }
    }

    // That of document 02.
    #[tactic(auto, using(crate::specs::Size::second_room))]
    pub fn second() -> Format
        ensures { result.edition ≡ second_edition }
    {
        Format {
            edition: Edition {
                head: 4,
                page: 5,
                most: SECOND_NODES,
                filed: true,
            },
        }
    }

    // How many bytes the archive of so many pages and nodes has.
    pub fn archive_bytes(self, pages: u16, nodes: u16) -> u32
        ensures { result ≡ archive_bytes self.edition pages nodes }
    {
        let edition = self.edition;
        2 * (edition.head as u32) + 2 * (edition.page as u32) * (pages as u32) + 8 * (nodes as u32)
    }
}
