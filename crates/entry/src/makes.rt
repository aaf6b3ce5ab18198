// The calls that make a name, a class, a body, a range and a rule, or refuse by the number of the same fault in a line.
ghost use Rattle.std.specs.Prelude.{◌≡◌, length, IfOk};
ghost use Rattle.entry.specs.Bodies.{codes_of, items_of};
ghost use Rattle.entry.specs.Faults.{name_fault, range_fault, rule_fault, size_fault};
ghost use Rattle.entry.specs.Named.{letters_of};
ghost use Rattle.entry.specs.Names.{is_letter};
ghost use Rattle.entry.specs.Rules.{motifs_of, net_from, net_of, ranges_of};
ghost use Rattle.refusal.specs.Checks.{refused_by};
ghost use Rattle.std.specs.List.{list_all};

use crate::body::{Body, Class, Item};
use crate::name::Name;
use crate::range::Range;
use crate::rule::Rule;
use few::Few;
use refusal::Refusal;

// How far a range may reach to either side.
const FURTHEST: i32 = 2000;

fn is_letter(byte: u8) -> bool
    ensures { result ≡ is_letter byte }
{
    b'a' <= byte && byte <= b'z'
}

fn all_letters(bytes: &[u8]) -> bool
    ensures { result ≡ list_all is_letter bytes.now }
{
    bytes.iter().all(|byte| is_letter(*byte))
}

impl Name {
    pub fn new(letters: &[u8]) -> Result<Name, Refusal>
        ensures refused { refused_by result ≡ name_fault letters.now }
        ensures value { IfOk result (λ n. letters_of n ≡ letters.now) }
    {
        let kept = Few::of(0, letters).map_err(|_| Refusal::BadName)?;
        if letters.is_empty() || !all_letters(letters) {
            return Err(Refusal::BadName);
        }
        Ok(Name { letters: kept })
    }
}

impl Class {
    pub fn new(codes: &[u16]) -> Result<Class, Refusal>
        ensures refused { refused_by result ≡ size_fault (length codes.now) 8 }
        ensures value { IfOk result (λ c. codes_of c ≡ codes.now) }
    {
        if codes.is_empty() {
            return Err(Refusal::BadShape);
        }
        let codes = Few::of(0, codes).map_err(|_| Refusal::TooMany)?;
        Ok(Class { codes })
    }
}

impl Body {
    pub fn new(items: &[Item]) -> Result<Body, Refusal>
        ensures refused { refused_by result ≡ size_fault (length items.now) 16 }
        ensures value { IfOk result (λ b. items_of b ≡ items.now) }
    {
        if items.is_empty() {
            return Err(Refusal::BadShape);
        }
        let items = Few::of(Item::Any, items).map_err(|_| Refusal::TooMany)?;
        Ok(Body { items })
    }
}

impl Range {
    pub fn new(low: i32, high: i32) -> Result<Range, Refusal>
        ensures refused { refused_by result ≡ range_fault low high }
        ensures value { IfOk result (λ g. (g.low ≡ low) × (g.high ≡ high)) }
    {
        let within = -FURTHEST..=FURTHEST;
        if !within.contains(&low) || !within.contains(&high) {
            return Err(Refusal::BadNumber);
        }
        if low > high {
            return Err(Refusal::BackwardRange);
        }
        Ok(Range { low, high })
    }
}

impl Rule {
    pub fn new(name: Name, motifs: &[usize], ranges: &[Range]) -> Result<Rule, Refusal>
        ensures refused { refused_by result ≡ rule_fault (length motifs.now) (length ranges.now) }
        ensures value { IfOk result (λ x. (x.name ≡ name) × (motifs_of x ≡ motifs.now) × (ranges_of x ≡ ranges.now)) }
        ensures meaning { IfOk result (λ x. net_of x ≡ net_from motifs.now ranges.now) }
    {
        if motifs.is_empty() || ranges.len() != motifs.len() - 1 {
            return Err(Refusal::BadShape);
        }
        let motifs = Few::of(0, motifs).map_err(|_| Refusal::TooMany)?;
        let ranges = Few::of(Range { low: 0, high: 0 }, ranges).map_err(|_| Refusal::TooMany)?;
        Ok(Rule {
            name,
            motifs,
            ranges,
        })
    }
}
