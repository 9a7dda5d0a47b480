// A run as it is stretched to the left: the sums over its members, and how many of them have each gain.
ghost use Rattle.std.specs.Prelude.{◌≡◌, ◌+◌, ◌≤◌, ◌<◌, get_or};
ghost use Rattle.model.specs.Table.{max_limit};
ghost use Rattle.columns.specs.CellsSums.{no_sums, joined_sums};

use table::MAX_LIMIT;

// A place for each gain, from 0 to the highest page limit.
const GAINS: usize = MAX_LIMIT as usize + 1;

// How many members, the sums of their rests and gains, their largest gain, and how many of them have each gain.
#[derive(Drop)]
pub struct Sums {
    pub len: u32,
    pub total: u32,
    pub gained: u32,
    pub top: u16,
    pub counts: [u16; GAINS],
}

impl Sums {
    // Those of no member.
    pub fn none() -> Sums
        ensures { result ≡ no_sums }
    {
        Sums {
            len: 0,
            total: 0,
            gained: 0,
            top: 0,
            counts: [0; GAINS],
        }
    }

    // One more member on the left.
    pub fn join(&mut self, rest: u16, gain: u16)
        requires { (gain ≤ max_limit) × (get_or self.old.counts gain 0 < 65535) × (self.old.len < 4294967295)
            × (self.old.total + rest < 4294967296) × (self.old.gained + gain < 4294967296) }
        ensures { self.new ≡ joined_sums self.old rest gain }
    {
        self.len += 1;
        self.total += rest as u32;
        self.gained += gain as u32;
        self.top = self.top.max(gain);
        self.counts[gain as usize] += 1;
    }
}
