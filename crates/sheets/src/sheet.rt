// The sheets of a plan, line by line, put one after the other into an output of their length.
ghost use Rattle.std.specs.Prelude.{◌≡◌, ◌+◌, ◌*◌, ◌≤◌, ◌<◌, length};
ghost use Rattle.model.specs.Table.{slots};
ghost use Rattle.model.specs.Sheets.{sheet_lines, sheet_bytes, sheet_count, line_at, sheet_at, sheets_by};
ghost use Rattle.theory.specs.Appended.{Appended};
ghost use Rattle.layout.specs.Rows.{LightPages};
ghost use Rattle.sheets.specs.Lines.{page_in};

use crate::line::{LINE, blank_line, first_line, last_line, page_line};
use layout::Layout;
use words::put::put_text;

const SHEET_LINES: u16 = 60;

const SHEET_PAGES: u16 = SHEET_LINES - 2;

// How many sheets so many pages take, and their bytes.
fn sheet_count(pages: u16) -> u16
    requires { pages < slots }
    ensures { result ≡ sheet_count pages }
{
    (pages + (SHEET_PAGES - 1)) / SHEET_PAGES
}

pub fn sheet_bytes(pages: u16) -> u32
    requires { pages < slots }
    ensures { result ≡ sheet_bytes * sheet_count pages }
{
    (LINE as u32) * (SHEET_LINES as u32) * (sheet_count(pages) as u32)
}

// The pages that are printed, none over the limit.
#[derive(Clone, Copy)]
pub struct Printed<'a> {
    pub layout: &'a Layout,
    pub limit: u16,
    ghost light: { LightPages layout.now.weights layout.now.pages limit },
}

impl Printed<'_> {
    // Line l of a sheet. Lines 2 to 59 have a page each, and blanks after the last.
    #[tactic(auto, using(crate::proofs::LinePlaces::line_places))]
    fn line_at(&self, sheet: u16, l: u16) -> [u8; LINE]
        requires { (1 ≤ sheet) × (sheet ≤ sheet_count self.now.layout.now.pages) × (1 ≤ l) × (l ≤ sheet_lines) }
        ensures { result
            ≡ line_at self.now.layout.now.pages self.now.limit (page_in self.now.layout.now) sheet l }
    {
        let layout = self.layout;
        if l == 1 {
            return first_line(layout.pages);
        }
        if l == SHEET_LINES {
            return last_line(sheet);
        }
        let p = SHEET_PAGES * (sheet - 1) + (l - 1);
        if layout.pages < p {
            return blank_line();
        }
        let i = p as usize;
        let (first, last) = (layout.firsts[i], layout.lasts[i]);
        page_line(p, first, last, layout.weights[i], self.limit)
    }

    // One sheet, from the position `at` on; the position after it.
    fn put_sheet(&self, sheet: u16, out: &mut [u8], at: usize) -> usize
        requires { (1 ≤ sheet) × (sheet ≤ sheet_count self.now.layout.now.pages) × (at + sheet_bytes ≤ length out.old) }
        ensures { Appended out.old at
            (sheet_at self.now.layout.now.pages self.now.limit (page_in self.now.layout.now) sheet)
            out.new result }
    {
        let mut end = at;
        for l in 1..=SHEET_LINES {
            let line = self.line_at(sheet, l);
            end = put_text(out, end, &line);
        }
        end
    }

    // All sheets of a plan.
    pub fn put_sheets(&self, out: &mut [u8])
        requires { length out.old ≡ sheet_bytes * sheet_count self.now.layout.now.pages }
        ensures { out.new
            ≡ sheets_by self.now.layout.now.pages self.now.limit (page_in self.now.layout.now) }
    {
        let sheets = sheet_count(self.layout.pages);
        let mut at: usize = 0;
        for s in 1..=sheets {
            at = self.put_sheet(s, out, at);
        }
    }
}
