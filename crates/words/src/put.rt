// Words and texts put into a string of bytes. Of a word, what would lie past its end is not put.
ghost use Rattle.std.specs.Prelude.{◌≡◌, length, set, ◌+◌, ◌≤◌, ◌<◌};
ghost use Rattle.theory.specs.Put.{put_word, put_record};
ghost use Rattle.theory.specs.Appended.{Appended};

fn put_byte(out: &mut [u8], i: usize, b: u8)
    ensures { out.new ≡ set out.old i b }
{
    if i < out.len() {
        out[i] = b;
    }
}

// A word: high byte first.
#[tactic(auto, unfolding(theory::specs::Put::put_word))]
pub fn put_word(out: &mut [u8], i: u32, w: u16)
    ensures { out.new ≡ put_word out.old i w }
{
    let at = 2 * (i as usize);
    let [high, low] = w.to_be_bytes();
    put_byte(out, at, high);
    put_byte(out, at + 1, low);
}

// Four words, from word i on.
#[tactic(auto, unfolding(theory::specs::Put::put_record))]
pub fn put_record(out: &mut [u8], i: u32, a: u16, b: u16, c: u16, d: u16)
    requires { i + 3 < 4294967296 }
    ensures { out.new ≡ put_record out.old i a b c d }
{
    put_word(out, i, a);
    put_word(out, i + 1, b);
    put_word(out, i + 2, c);
    put_word(out, i + 3, d);
}

// A text, from the position `at` on; the position after it.
pub fn put_text(out: &mut [u8], at: usize, text: &[u8]) -> usize
    requires { at + length text.now ≤ length out.old }
    ensures { Appended out.old at text.now out.new result }
{
    let end = at + text.len();
    out[at..end].copy_from_slice(text);
    end
}
