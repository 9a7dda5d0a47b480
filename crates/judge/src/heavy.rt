// What the judge finds on the pages: the first over the limit.
ghost use Rattle.std.specs.Prelude.{◌≡◌, ◌<◌, ltb, get_or};
ghost use Rattle.model.specs.Basics.{first_to};
ghost use Rattle.model.specs.Table.{slots};

use layout::Layout;
use table::first_to;

// The first page that weighs over the limit.
pub fn first_heavy(layout: &Layout, limit: u16) -> Option<u16>
    requires { layout.now.pages < slots }
    ensures { result ≡ first_to layout.now.pages (λ p. ltb limit (get_or layout.now.weights p 0)) }
{
    first_to(
        layout.pages,
        |page| (limit as u32) < layout.weights[page as usize],
    )
}
