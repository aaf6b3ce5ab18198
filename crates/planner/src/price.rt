// What prices are made from, and what an order costs by it, whoever made the order up.
ghost use Rattle.planner.specs.Orders.{Asked};
ghost use Rattle.planner.specs.Terms.{terms_of};
ghost use Rattle.walk.specs.Asked.{order_of};

use crate::run::Run;
use crate::tariff::Tariff;
use forecast::Forecast;
use walk::{Letter, Order};

// The prices and the widths of a rule, and what is forecast of it.
#[derive(Clone, Copy)]
pub(crate) struct Pricing<'a> {
    pub(crate) tariff: &'a Tariff,
    pub(crate) forecast: &'a Forecast,
}

impl Pricing<'_> {
    ghost use Rattle.std.specs.Prelude.{◌≡◌, ◌+◌, ◌*◌, ◌≤◌};
    ghost use Rattle.planner.specs.Best.{most};
    ghost use Rattle.planner.specs.Orders.{Asked, Completes, price_of_letter, price_of_letters, taking};
    ghost use Rattle.planner.specs.Runs.{Can};
    ghost use Rattle.planner.specs.Terms.{terms};
    ghost use Rattle.walk.specs.Asked.{order_of};

    // How many motifs the rule has.
    pub(crate) fn motifs(&self) -> usize
        ensures value { result ≡ (terms self.now).motifs }
        ensures some { 1 ≤ result }
        ensures few { result ≤ 12 }
    {
        self.tariff.motifs()
    }

    // What the looks for a seed cost: one at each place of the row.
    pub(crate) fn seed_price(&self, seed: usize) -> u64
        requires some { 1 ≤ seed }
        requires within { seed ≤ (terms self.now).motifs }
        ensures value { result ≡ ((terms self.now).boxes + 1) * (terms self.now).look seed }
        ensures bound { result ≤ 20001 * 1000 }
    {
        (self.forecast.length() as u64 + 1) * self.tariff.charge(seed).look
    }

    // What it costs to take the motif over the range, once.
    fn taking_price(&self, motif: usize, range: usize) -> u64
        requires some { 1 ≤ motif }
        requires within { motif ≤ (terms self.now).motifs }
        requires over { 1 ≤ range }
        requires between { range + 1 ≤ (terms self.now).motifs }
        ensures value { result ≡ taking (terms self.now) motif range }
        ensures bound { result ≤ 4_002_000 }
    {
        let taken = self.tariff.charge(motif);
        taken.opening + self.tariff.places(range) * taken.look
    }

    // What the letter costs after the run.
    pub(crate) fn letter_price(&self, run: Run, letter: Letter) -> u64
        requires { Can (terms self.now).motifs run.first run.last letter }
        ensures value { result ≡ price_of_letter (terms self.now) run.first run.last letter }
        ensures bound { result ≤ most }
    {
        let (motif, range) = run.taken(letter);
        self.forecast.at(run.first, run.last) * self.taking_price(motif, range)
    }

    // What the letters of an order cost from the run of its seed alone on.
    fn letters_price(&self, order: Order<'_>) -> u64
        requires { Completes (terms self.now) order.seed order.seed order.letters.now }
        ensures value { result ≡ price_of_letters (terms self.now) (order_of order.entry).seed (order_of order.entry).seed (order_of order.entry).letters }
        ensures bound { result ≤ most * 11 }
    {
        let mut price = 0;
        let mut run = Run::alone(order.seed);
        for &letter in order.letters {
            price += self.letter_price(run, letter);
            run = run.after(letter);
        }
        price
    }

    // The price of an order, `None` where the rule has no such order.
    pub(crate) fn price(&self, order: Order<'_>) -> Option<u64>
        ensures { Asked (terms self.now) (order_of order.entry).seed (order_of order.entry).letters result }
    {
        if !order.is_of(self.motifs()) {
            return None;
        }
        Some(self.seed_price(order.seed) + self.letters_price(order))
    }
}

// The price of an order by a tariff, `None` where the tariff's rule has no such order.
pub fn price_by(tariff: &Tariff, forecast: &Forecast, order: Order<'_>) -> Option<u64>
    ensures { Asked (terms_of tariff.now forecast.now) (order_of order.entry).seed (order_of order.entry).letters result }
{
    Pricing { tariff, forecast }.price(order)
}
