// The lines of a sheet, each 80 columns and a newline byte. A line goes by value from blanks through its fields.
ghost use Rattle.std.specs.Prelude.{◌≡◌, [], ◌+◌, ◌^◌, ◌≤◌, ◌<◌};
ghost use Rattle.model.specs.Sheets.{columns, field, line_with, first_line, last_line, per_cent, line_for_page};
ghost use Rattle.sheets.specs.Lines.{FieldPut};

pub const LINE: usize = 81;

// A line of blanks.
#[tactic(auto, unfolding(model::specs::Sheets::line_with))]
pub fn blank_line() -> [u8; LINE]
    ensures { result ≡ line_with [] }
{
    let mut line = [b' '; LINE];
    line[LINE - 1] = b'\n';
    line
}

// A number right-aligned in so many columns, after `at` columns of text. Its digits come from the last one on: not by a
// `for` over the columns, which was unrolled, so that each byte of any line was put by itself, and a sheet of blanks took
// twice as long.
fn put_field(line: [u8; LINE], at: usize, width: usize, n: u32) -> [u8; LINE]
    requires { (1 ≤ width) × (at + width ≤ columns) × (n < 10 ^ width) }
    ensures { FieldPut line at (field width n) result }
{
    let mut out = line;
    let mut i = at + width - 1;
    let mut rest = n;
    while 9 < rest {
        out[i] = b'0' + (rest % 10) as u8;
        rest /= 10;
        i -= 1;
    }
    out[i] = b'0' + rest as u8;
    out
}

// Line 1: the plan's page count.
pub fn first_line(pages: u16) -> [u8; LINE]
    ensures { result ≡ first_line pages }
{
    let mut line = blank_line();
    line[..5].copy_from_slice(b"PAGES");
    put_field(line, 6, 6, pages as u32)
}

// Line 60: the sheet's number.
#[tactic(auto, unfolding(model::specs::Sheets::last_line))]
pub fn last_line(sheet: u16) -> [u8; LINE]
    ensures { result ≡ last_line sheet }
{
    put_field(blank_line(), 0, 6, sheet as u32)
}

// The whole per cent of the limit, rounded down.
fn per_cent(weight: u32, limit: u16) -> u32
    requires { (1 ≤ limit) × (weight ≤ limit) }
    ensures { result ≡ per_cent weight limit }
{
    100 * weight / (limit as u32)
}

// The line of page p, from its first node, last sibling and weight.
pub fn page_line(p: u16, first: u16, last: u16, weight: u32, limit: u16) -> [u8; LINE]
    requires { (1 ≤ limit) × (weight ≤ limit) }
    ensures { result ≡ line_for_page limit p (record { first = first; last = last; weight = weight }) }
{
    let numbered = put_field(blank_line(), 0, 6, p as u32);
    let begun = put_field(numbered, 6, 6, first as u32);
    let ended = put_field(begun, 12, 6, last as u32);
    let weighed = put_field(ended, 18, 6, weight);
    put_field(weighed, 24, 4, per_cent(weight, limit))
}
