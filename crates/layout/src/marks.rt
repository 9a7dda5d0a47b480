// The marks of a plan, and the test of one.
ghost use Rattle.std.specs.Prelude.{◌≡◌};
ghost use Rattle.model.specs.Plan.{mark_at};
ghost use Rattle.layout.specs.Rows.{good_case};

// The mark of node v; what lies past the end reads as 0.
#[tactic(auto, unfolding(model::specs::Plan::mark_at))]
pub fn mark_at(marks: &[u8], v: u16) -> u8
    ensures { result ≡ mark_at marks.now v }
{
    marks
        .get(v.saturating_sub(1) as usize)
        .copied()
        .unwrap_or(0)
}

// Node 1 has 1. A 2 needs a sibling just before it with 1 or 2.
#[tactic(auto, unfolding(crate::specs::Rows::good_case, model::specs::Basics::pick))]
pub fn is_good(v: u16, mark: u8, before: u16, prior: u8) -> bool
    ensures { result ≡ good_case v mark before prior }
{
    if v == 1 {
        return mark == 1;
    }
    if mark == 2 {
        return before != 0 && (prior == 1 || prior == 2);
    }
    mark == 0 || mark == 1
}
