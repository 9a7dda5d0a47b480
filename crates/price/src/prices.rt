// What pages cost: the film maker's prices by fill, and the price of a plan, the sum over its pages.
ghost use Rattle.std.specs.Prelude.{◌≡◌, ◌≤◌, ◌*◌, get_or};
ghost use Rattle.model.specs.Basics.{sum_to};
ghost use Rattle.model.specs.Prices.{full_fill, fill_of, price_at, cents_for};
ghost use Rattle.layout.specs.Rows.{LightPages};

use layout::Layout;
use model::{PlanSize, Price};

const FULL_FILL: u32 = 15;

// Cents by fill, from an empty page to a full one.
const PRICES: [u32; 16] = [
    410, 405, 398, 390, 380, 368, 355, 340, 324, 306, 287, 266, 244, 221, 196, 90,
];

// So many fifteenths of the limit, rounded down.
fn fill_of(weight: u32, limit: u16) -> u32
    requires { (1 ≤ limit) × (weight ≤ limit) }
    ensures { result ≡ fill_of weight limit }
{
    FULL_FILL * weight / (limit as u32)
}

#[tactic(auto, using(theory::proofs::PricePages::price_range))]
fn price_at(fill: u32) -> u32
    requires { fill ≤ full_fill }
    ensures value { result ≡ price_at fill }
    ensures most { result ≤ 410 }
{
    PRICES[fill as usize]
}

// The price of a plan by its layout.
#[tactic(auto, using(crate::proofs::LayoutTotal::adding))]
pub fn price_of(plan: PlanSize, layout: &Layout, limit: u16) -> Price
    requires { LightPages layout.now.weights layout.now.pages limit }
    ensures plan_same { result.plan ≡ plan }
    ensures cents_value { result.cents
        ≡ sum_to layout.now.pages (λ p. cents_for (get_or layout.now.weights p 0) limit) }
    ensures most { result.cents ≤ 410 * layout.now.pages }
{
    let mut cents = 0;
    for page in 1..=layout.pages {
        cents += price_at(fill_of(layout.weights[page as usize], limit));
    }
    Price { plan, cents }
}
