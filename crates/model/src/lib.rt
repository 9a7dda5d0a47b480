// The answer types of document 01. Their meaning, and every rule of the document, stands in specs/.
#![tactic(auto)]

ghost use Rattle.std.specs.Prelude.{◌≡◌};
ghost use Rattle.model.specs.Refusals.{answer_of, refusal_answer, plan_told};

// Why a plan failed: a bad mark at a node, or a heavy page by its number.
#[derive(Clone, Copy, Debug, PartialEq, Eq)]
pub enum Cause {
    BadMark(u32),
    HeavyPage(u32),
}

// The judge's verdict of a plan: its page count and root weight, or else why it failed.
#[derive(Clone, Copy, Debug, PartialEq, Eq)]
pub enum Verdict {
    Feasible { pages: u32, root: u32 },
    Failed(Cause),
}

// The size of a feasible plan: its page count and root weight.
#[derive(Clone, Copy, Debug, PartialEq, Eq)]
pub struct PlanSize {
    pub pages: u32,
    pub root: u32,
}

// A refusal of the list, by what it finds. A plan that failed is refused by whoever needs a feasible one.
#[derive(Clone, Copy, Debug, PartialEq, Eq)]
pub enum Refusal {
    ShortTable,
    BadCount(u16),
    BadLimit(u16),
    BadLength(u32),
    BadWalk(u16),
    HeavyNode(u16),
    BadMarks(u16),
    ShortScratch(u32),
    PlanFailed(Cause),
    BadOutput(u32),
    NoArchive,
    NoLabel(u16),
    ManyNodes(u16),
}

// What a feasible plan costs: its size, and its total in cents.
#[derive(Clone, Copy, Debug, PartialEq, Eq)]
pub struct Price {
    pub plan: PlanSize,
    pub cents: u32,
}

// What the best plan saves against the single-cut plan: the best plan's size, and single total less best total in
// cents, which can be below zero.
#[derive(Clone, Copy, Debug, PartialEq, Eq)]
pub struct Saving {
    pub plan: PlanSize,
    pub saving: i32,
}

// How an edition of the archive is laid out: how many words its head and each page record have, how many nodes it takes
// at most, and whether its film is filed, with no label 0.
#[derive(Clone, Copy, Debug, PartialEq, Eq)]
pub struct Edition {
    pub head: u16,
    pub page: u16,
    pub most: u16,
    pub filed: bool,
}

impl Refusal {
    // Its number in the list.
    pub fn number(self) -> u32
        ensures { result ≡ (refusal_answer self).number }
    {
        match self {
            Refusal::ShortTable => 1,
            Refusal::BadCount(_) => 2,
            Refusal::BadLimit(_) => 3,
            Refusal::BadLength(_) => 4,
            Refusal::BadWalk(_) => 6,
            Refusal::HeavyNode(_) => 7,
            Refusal::BadMarks(_) => 8,
            Refusal::ShortScratch(_) => 9,
            Refusal::PlanFailed(Cause::BadMark(_)) => 10,
            Refusal::PlanFailed(Cause::HeavyPage(_)) => 11,
            Refusal::BadOutput(_) => 12,
            Refusal::NoArchive => 13,
            Refusal::NoLabel(_) => 14,
            Refusal::ManyNodes(_) => 15,
        }
    }

    // Its place.
    pub fn place(self) -> u32
        ensures { result ≡ (refusal_answer self).place }
    {
        match self {
            Refusal::ShortTable | Refusal::NoArchive => 0,
            Refusal::PlanFailed(Cause::BadMark(node)) => node,
            Refusal::PlanFailed(Cause::HeavyPage(page)) => page,
            Refusal::BadCount(count) | Refusal::BadMarks(count) | Refusal::ManyNodes(count) =>
                count as u32,
            Refusal::BadLimit(limit) => limit as u32,
            Refusal::BadWalk(node) | Refusal::HeavyNode(node) | Refusal::NoLabel(node) =>
                node as u32,
            Refusal::BadLength(bytes) | Refusal::BadOutput(bytes) => bytes,
            Refusal::ShortScratch(words) => words,
        }
    }
}

impl Verdict {
    // The size of a feasible plan; one that failed is refused.
    pub fn feasible(self) -> Result<PlanSize, Refusal>
        ensures { plan_told result ≡ answer_of self }
    {
        match self {
            Verdict::Feasible { pages, root } => Ok(PlanSize { pages, root }),
            Verdict::Failed(cause) => Err(Refusal::PlanFailed(cause)),
        }
    }
}
