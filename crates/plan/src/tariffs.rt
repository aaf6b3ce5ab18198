// What the prices of a rule's orders are made from, read from the rule and a priced source once.
ghost use Rattle.std.specs.Prelude.{◌≡◌, map};
ghost use Rattle.entry.specs.Rules.{motifs_of, net_of, ranges_of, span_of, width};
ghost use Rattle.few.specs.Few.{entries};
ghost use Rattle.planner.specs.Laws.{Agree};
ghost use Rattle.planner.specs.Terms.{terms_by, terms_of};
ghost use Rattle.source.specs.Meaning.{priced};

use entry::Rule;
use few::Few;
use forecast::Forecast;
use planner::{Charge, Tariff, Width};
use source::PricedSource;

// The charges of the rule's motifs, in their order.
fn charges_of<S: PricedSource>(rule: &Rule, source: &S) -> Few<Charge, 12>
    ensures look { map (λ c. c.look) (entries result) ≡ map (λ m. (S.PricedSource.price source.now m).look) (motifs_of rule.now) }
    ensures opening { map (λ c. c.opening) (entries result) ≡ map (λ m. (S.PricedSource.price source.now m).opening) (motifs_of rule.now) }
{
    let mut charges = Few::none(Charge {
        look: 1,
        opening: 0,
    });
    for motif in rule.motifs() {
        let (look, opening) = source.prices(*motif);
        let charge = Charge {
            look: u64::from(look),
            opening: u64::from(opening),
        };
        charges.push(charge).unwrap();
    }
    charges
}

// The widths of the rule's ranges, in their order.
fn widths_of(rule: &Rule) -> Few<Width, 11>
    ensures { map (λ w. w.places) (entries result) ≡ map (λ g. width (span_of g)) (ranges_of rule.now) }
{
    let mut widths = Few::none(Width { places: 1 });
    for range in rule.ranges() {
        let width = Width {
            places: range.width() as u64,
        };
        widths.push(width).unwrap();
    }
    widths
}

pub(crate) fn tariff_of<S: PricedSource>(rule: &Rule, source: &S) -> Tariff
    ensures { (f : Forecast) → Agree (terms_of result f) (terms_by (priced (S.Source.means source.now) (S.PricedSource.price source.now)) (net_of rule.now) f) }
{
    Tariff {
        charges: charges_of(rule, source),
        widths: widths_of(rule),
    }
}
