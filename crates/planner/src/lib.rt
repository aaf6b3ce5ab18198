// What an order costs by a forecast, and the order of least price.
#![tactic(auto)]

ghost use Rattle.planner.specs.Laws.{AllowedCompletes, CountedPrice, OnlyOne, SamePlan, SamePrices};

pub mod plan;
pub mod planned;
pub mod price;
mod run;
pub mod tariff;

pub use self::plan::cheapest;
pub use self::planned::Planned;
pub use self::price::price_by;
pub use self::tariff::{Charge, Tariff, Width};

// With the true numbers of partial placements as the forecast, the price is the one that the walk comes to.
pub fn counted_price_stands()
    ensures { CountedPrice }
{}

// The orders that are priced and planned are those that the walk allows.
pub fn allowed_stands()
    ensures { AllowedCompletes }
{}

// Nothing but the prices, the widths and the forecast of the rule's own runs goes into a price or a plan.
pub fn agreement_stands()
    ensures prices { SamePrices }
    ensures plan { SamePlan }
{}

// No rule has two planned orders.
pub fn only_one_stands()
    ensures { OnlyOne }
{}
