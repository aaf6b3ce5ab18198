// The rules of a book by their numbers.
#![tactic(auto)]

ghost use Rattle.std.specs.Prelude.{◌≡◌, map};
ghost use Rattle.entry.specs.Rules.{net_of};
ghost use Rattle.rules.specs.Nets.{nets_in};
ghost use Rattle.std.specs.Option.{option_map};
ghost use Rattle.walk.specs.Asked.{rule_numbered};

use book::Book;
use entry::Rule;

// The rule with the number, from 0, `None` where the book has no such rule.
#[tactic(auto, using(crate::proofs::Found::rule_found))]
pub fn rule_at(book: &Book, number: usize) -> Option<&Rule>
    ensures { option_map (λ x. net_of x.now) result ≡ rule_numbered (nets_in book.now) number }
{
    book.rules().get(number)
}
