// The lines of a report, put one after the other.
ghost use Rattle.std.specs.Prelude.{◌≤◌};
ghost use Rattle.pages.specs.Text.{report_bytes};

use model::Refusal;
use table::MAX_NODES;
use words::put::put_text;

// The longest report: a head line, and a line for each page, none over 80 bytes.
const REPORT_BYTES: usize = 80 * (MAX_NODES as usize + 1);

// The lines of a report so far, at the start of room for the longest.
#[derive(Drop)]
pub struct Lines {
    bytes: [u8; REPORT_BYTES],
    used: usize,
    ghost in_room: { used ≤ report_bytes },
}

impl Lines {
    ghost use Rattle.std.specs.Prelude.{◌≡◌, ◌+◌, ◌++◌, [], length};
    ghost use Rattle.model.specs.Refusals.{refusal_answer};
    ghost use Rattle.pages.specs.Text.{item, line_bytes, head_line, page_line, refusal_line};
    ghost use Rattle.pages.specs.Written.{written};

    pub fn new() -> Lines
        ensures written { written result ≡ [] }
        ensures unused { result.used ≡ 0 }
    {
        Lines {
            bytes: [0; REPORT_BYTES],
            used: 0,
        }
    }

    // No line yet.
    pub fn clear(&mut self)
        ensures written { written self.new ≡ [] }
        ensures unused { self.new.used ≡ 0 }
    {
        self.used = 0;
    }

    pub fn as_bytes(&self) -> &[u8]
        ensures { result.now ≡ written self.now }
    {
        &self.bytes[..self.used]
    }

    fn put(&mut self, text: &[u8])
        requires { self.old.used + length text.now ≤ report_bytes }
        ensures written { written self.new ≡ written self.old ++ text.now }
        ensures longer { self.new.used ≡ self.old.used + length text.now }
    {
        self.used = put_text(&mut self.bytes, self.used, text);
    }

    // A word and the number after it. Not by `write!`, which promises its bytes only where it does not fail, and does
    // not promise that.
    fn put_item(&mut self, word: &[u8], n: u32)
        requires { self.old.used + length word.now + 10 ≤ report_bytes }
        ensures written { written self.new ≡ written self.old ++ item word.now n }
        ensures upper_bound { self.new.used ≤ self.old.used + length word.now + 10 }
    {
        let mut digits = [0u8; 20];
        let count = io::decimal(n as u64, &mut digits);
        self.put(word);
        self.put(&digits[..count]);
    }

    // Page count, root weight and limit.
    #[tactic(auto, using(crate::proofs::Digits::putting), unfolding(crate::specs::Text::head_line))]
    pub fn put_head(&mut self, pages: u32, root: u32, limit: u32)
        requires { self.old.used + line_bytes ≤ report_bytes }
        ensures written { written self.new ≡ written self.old ++ head_line pages root limit }
        ensures upper_bound { self.new.used ≤ self.old.used + line_bytes }
    {
        self.put_item(b"pages ", pages);
        self.put_item(b" root ", root);
        self.put_item(b" limit ", limit);
        self.put(b"\n");
    }

    // A page: number, first node, last sibling, weight.
    #[tactic(auto, using(crate::proofs::Digits::putting), unfolding(crate::specs::Text::page_line))]
    pub fn put_page(&mut self, page: u16, first: u16, last: u16, weight: u32)
        requires { self.old.used + line_bytes ≤ report_bytes }
        ensures written { written self.new ≡ written self.old ++ page_line page first last weight }
        ensures upper_bound { self.new.used ≤ self.old.used + line_bytes }
    {
        self.put_item(b"page ", page as u32);
        self.put_item(b" first ", first as u32);
        self.put_item(b" last ", last as u32);
        self.put_item(b" weight ", weight);
        self.put(b"\n");
    }

    // A refusal: number and place.
    #[tactic(auto, using(crate::proofs::Digits::putting), unfolding(crate::specs::Text::refusal_line))]
    pub fn put_refusal(&mut self, refusal: Refusal)
        requires { self.old.used + line_bytes ≤ report_bytes }
        ensures written { written self.new
            ≡ written self.old ++ refusal_line (refusal_answer refusal).number (refusal_answer refusal).place }
        ensures upper_bound { self.new.used ≤ self.old.used + line_bytes }
    {
        self.put_item(b"refused ", refusal.number());
        self.put_item(b" at ", refusal.place());
        self.put(b"\n");
    }
}
