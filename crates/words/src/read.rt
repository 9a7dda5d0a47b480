// The words of a string of bytes, and the records of a table. What lies past the end reads as 0, as in the definitions.
ghost use Rattle.std.specs.Prelude.{◌≡◌, ◌+◌, ◌*◌, get_or};
ghost use Rattle.model.specs.Table.{word_at, node_count, limit_of, field_at, weight_at, label_at, first_at, next_at};

fn byte_at(bytes: &[u8], i: usize) -> u8
    ensures { result ≡ get_or bytes.now i 0 }
{
    bytes.get(i).copied().unwrap_or(0)
}

// A word: 16 bits, high byte first.
#[tactic(auto, unfolding(model::specs::Table::word_at))]
pub fn word_at(bytes: &[u8], i: u32) -> u16
    ensures { result ≡ word_at bytes.now i }
{
    let at = 2 * (i as usize);
    u16::from_be_bytes([byte_at(bytes, at), byte_at(bytes, at + 1)])
}

pub fn node_count(table: &[u8]) -> u16
    ensures { result ≡ node_count table.now }
{
    word_at(table, 0)
}

pub fn limit_of(table: &[u8]) -> u16
    ensures { result ≡ limit_of table.now }
{
    word_at(table, 1)
}

// Word f of node v's record.
#[tactic(auto, unfolding(model::specs::Table::field_at))]
pub fn field_at(table: &[u8], v: u16, f: u8) -> u16
    ensures { result ≡ field_at table.now v f }
{
    let before = v.saturating_sub(1);
    word_at(table, 2 + 4 * (before as u32) + (f as u32))
}

pub fn weight_at(table: &[u8], v: u16) -> u16
    ensures { result ≡ weight_at table.now v }
{
    field_at(table, v, 0)
}

pub fn label_at(table: &[u8], v: u16) -> u16
    ensures { result ≡ label_at table.now v }
{
    field_at(table, v, 1)
}

pub fn first_at(table: &[u8], v: u16) -> u16
    ensures { result ≡ first_at table.now v }
{
    field_at(table, v, 2)
}

pub fn next_at(table: &[u8], v: u16) -> u16
    ensures { result ≡ next_at table.now v }
{
    field_at(table, v, 3)
}
