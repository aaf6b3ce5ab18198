// The order of least price: the least price to go on from each run to the whole rule, each run after the two that are
// one motif longer, and then, from the best seed, the letters that lead along these prices.
ghost use Rattle.std.specs.Prelude.{◌≡◌, ◌+◌, ◌≤◌};
ghost use Rattle.few.specs.Few.{entries};
ghost use Rattle.forecast.specs.Runs.{number_at};
ghost use Rattle.planner.specs.Best.{Ahead, Best, Chosen, Filled, start};
ghost use Rattle.planner.specs.Letters.{planned_order};
ghost use Rattle.planner.specs.Orders.{IsPlanned};
ghost use Rattle.planner.specs.Terms.{terms, terms_of};

use crate::planned::Planned;
use crate::price::Pricing;
use crate::run::Run;
use crate::tariff::Tariff;
use few::Few;
use forecast::{Forecast, Runs};
use walk::Letter;

// The first letter of the best way on from a run, and the price of that way.
#[derive(Clone, Copy)]
struct Next {
    letter: Letter,
    price: u64,
}

impl Pricing<'_> {
    ghost use Rattle.planner.specs.Ways.{Way, Extends};

    // The best way on from the run that begins with the letter, `None` where there is no motif for it to take.
    fn way(&self, costs: &Runs, run: Run, letter: Letter) -> Option<Next>
        requires within { run.last ≤ (terms self.now).motifs }
        requires ahead { Ahead (terms self.now) (number_at costs.now) run.first run.last }
        ensures { Way (terms self.now) (number_at costs.now) run.first run.last letter result }
    {
        if !run.can(letter, self.motifs()) {
            return None;
        }
        let after = run.after(letter);
        let price = self.letter_price(run, letter) + costs.at(after.first, after.last);
        Some(Next { letter, price })
    }

    // How to go on from the run: `None` where it is the whole rule.
    fn extend(&self, costs: &Runs, run: Run) -> Option<Next>
        requires within { run.last ≤ (terms self.now).motifs }
        requires ahead { Ahead (terms self.now) (number_at costs.now) run.first run.last }
        ensures { Extends (terms self.now) run.first run.last result }
    {
        let left = self.way(costs, run, Letter::L);
        let right = self.way(costs, run, Letter::R);
        match (left, right) {
            (Some(l), Some(r)) if l.price < r.price => left,
            (_, Some(_)) => right,
            _ => left,
        }
    }

    // The least price to go on from each run to the whole rule.
    fn least_prices(&self) -> Runs
        ensures { Filled (terms self.now) (number_at result) }
    {
        let motifs = self.motifs();
        let mut costs = Runs::zeros();
        // By number, as runs are named: each needs the two that are one motif longer, which the table has by then.
        for first in 1..motifs + 1 {
            for last in (first..motifs + 1).rev() {
                let next = self.extend(&costs, Run { first, last });
                costs.put(first, last, next.map_or(0, |next| next.price));
            }
        }
        costs
    }
}

// The least price to go on from each run to the whole rule. That it has that of each run is no ghost field, which has to
// be a proposition: `Filled` has the letters of each run as well.
#[derive(Clone, Copy)]
struct Costs<'a> {
    pricing: Pricing<'a>,
    least: &'a Runs,
}

// A seed is a bare number, as in `Order` and `Planned`: a type of its own would give the number back at each call.
impl Costs<'_> {
    // The least price of an order with this seed.
    fn seed_price(&self, seed: usize) -> u64
        requires some { 1 ≤ seed }
        requires within { seed ≤ (terms self.now.pricing).motifs }
        requires filled { Filled (terms self.now.pricing) (number_at self.now.least.now) }
        ensures { result ≡ start (terms self.now.pricing) (number_at self.now.least.now) seed }
    {
        self.pricing.seed_price(seed) + self.least.at(seed, seed)
    }

    // The first seed of those with the least price, and that price.
    fn best_seed(&self) -> (usize, u64)
        requires { Filled (terms self.now.pricing) (number_at self.now.least.now) }
        ensures { Chosen (terms self.now.pricing) (number_at self.now.least.now) ((terms self.now.pricing).motifs + 1) result.0 result.1 }
    {
        // By hand: of `min_by_key` it stayed open that each seed may be asked, and that the first of equals is kept.
        let mut best = (1, self.seed_price(1));
        for seed in 2..self.pricing.motifs() + 1 {
            let price = self.seed_price(seed);
            if price < best.1 {
                best = (seed, price);
            }
        }
        best
    }

    // The best letters from a seed on.
    fn best_letters(&self, seed: usize) -> Few<Letter, 11>
        requires some { 1 ≤ seed }
        requires within { seed ≤ (terms self.now.pricing).motifs }
        requires filled { Filled (terms self.now.pricing) (number_at self.now.least.now) }
        ensures { Best (terms self.now.pricing) seed seed (entries result) }
    {
        let mut letters = Few::none(Letter::R);
        let mut run = Run::alone(seed);
        while let Some(next) = self.pricing.extend(self.least, run) {
            run = run.after(next.letter);
            letters.push(next.letter).unwrap();
        }
        letters
    }

    fn plan(&self) -> Planned
        requires { Filled (terms self.now.pricing) (number_at self.now.least.now) }
        ensures { IsPlanned (terms self.now.pricing) (planned_order result).seed (planned_order result).letters result.price }
    {
        let (seed, price) = self.best_seed();
        Planned {
            seed,
            letters: self.best_letters(seed),
            price,
        }
    }
}

// The planned order: the cheapest; among equals the one with the smallest seed, and then the one with R at the first
// letter that differs.
pub fn cheapest(tariff: &Tariff, forecast: &Forecast) -> Planned
    ensures { IsPlanned (terms_of tariff.now forecast.now) (planned_order result).seed (planned_order result).letters result.price }
{
    let pricing = Pricing { tariff, forecast };
    let least = &pricing.least_prices();
    Costs { pricing, least }.plan()
}
