// What an order of a rule costs by a forecast, and which order is the cheapest.
ghost use Rattle.std.specs.Prelude.{◌≡◌, IfOk};
ghost use Rattle.plan.specs.Answers.{PlanAnswer, PlansOnly, PriceAnswer};
ghost use Rattle.rules.specs.Nets.{nets_in};
ghost use Rattle.source.specs.Meaning.{priced};
ghost use Rattle.walk.specs.Asked.{order_of, rule_numbered};

use crate::tariffs::tariff_of;
use book::Book;
use forecast::Forecast;
use planner::{Planned, cheapest, price_by};
use refusal::Refusal;
use rules::rule_at;
use source::PricedSource;
use walk::Order;

// The price of an order by the forecast, whoever made the order up.
pub fn price<S: PricedSource>(
    book: &Book,
    rule: usize,
    order: Order<'_>,
    forecast: &Forecast,
    source: &S,
) -> Result<u64, Refusal>
    ensures { PriceAnswer (priced (S.Source.means source.now) (S.PricedSource.price source.now)) (rule_numbered (nets_in book.now) rule) (order_of order.entry) forecast.now result }
{
    let rule = rule_at(book, rule).ok_or(Refusal::UnknownRule)?;
    price_by(&tariff_of(rule, source), forecast, order).ok_or(Refusal::BadOrder)
}

// The planned order: the cheapest by the forecast; among equals the one with the smallest seed, and then the one with R
// at the first letter that differs.
pub fn plan<S: PricedSource>(
    book: &Book,
    rule: usize,
    forecast: &Forecast,
    source: &S,
) -> Result<Planned, Refusal>
    ensures value { PlanAnswer (priced (S.Source.means source.now) (S.PricedSource.price source.now)) (rule_numbered (nets_in book.now) rule) forecast.now result }
    ensures only { IfOk result (PlansOnly (priced (S.Source.means source.now) (S.PricedSource.price source.now)) (rule_numbered (nets_in book.now) rule) forecast.now) }
{
    let rule = rule_at(book, rule).ok_or(Refusal::UnknownRule)?;
    Ok(cheapest(&tariff_of(rule, source), forecast))
}
