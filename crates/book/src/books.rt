// A book, and what is added to it.
ghost use Rattle.std.specs.Prelude.{◌≡◌, [], ◌∷◌, ◌++◌, is_ok, IfOk, if◌then◌else◌, OnErr, nat_lt};
ghost use Rattle.book.specs.Adding.{motif_fault, motifs_in, rule_add_fault, rules_in};
ghost use Rattle.book.specs.Entries.{Unique, motif_names, rule_names};
ghost use Rattle.refusal.specs.Checks.{refused_by};
ghost use Rattle.std.specs.List.{list_all};

use crate::values::book::Book;
use entry::{Motif, Rule, is_taken};
use refusal::Refusal;
use std::alloc::{AllocError, Global};

fn all_below(numbers: &[usize], count: usize) -> bool
    ensures { result ≡ list_all (λ k. nat_lt k count) numbers.now }
{
    numbers.iter().all(|k| *k < count)
}

impl Book {
    // An empty book, with room for all that it may come to hold.
    pub fn new(heap: Global) -> Result<Book, AllocError>
        ensures { IfOk result (λ b. (motifs_in b ≡ []) × (rules_in b ≡ [])) }
    {
        let motifs = Vec::with_capacity(heap, 16)?;
        let rules = Vec::with_capacity(heap, 8)?;
        Ok(Book { motifs, rules })
    }

    // The motifs in the order of their numbers, no two of one name.
    pub fn motifs(&self) -> &[Motif]
        ensures value { result.now ≡ motifs_in self.now }
        ensures apart { Unique (motif_names result.now) }
    {
        self.motifs.as_slice()
    }

    // The rules in the order of their numbers, no two of one name.
    pub fn rules(&self) -> &[Rule]
        ensures value { result.now ≡ rules_in self.now }
        ensures apart { Unique (rule_names result.now) }
    {
        self.rules.as_slice()
    }

    // Adds a motif, which gets the next number.
    pub fn add_motif(&mut self, motif: Motif) -> Result<(), Refusal>
        ensures refused { refused_by result ≡ motif_fault self.old motif }
        ensures motifs { motifs_in self.new ≡ (if is_ok result then motifs_in self.old ++ motif ∷ [] else motifs_in self.old) }
        ensures rules { rules_in self.new ≡ rules_in self.old }
        ensures same { OnErr result (self.new ≡ self.old) }
    {
        if is_taken(self.motifs.as_slice(), motif.name.letters()) {
            return Err(Refusal::NameTaken);
        }
        if self.motifs.len() >= 16 {
            return Err(Refusal::NoRoom);
        }
        self.motifs.push_reserved(motif);
        Ok(())
    }

    // Adds a rule, which gets the next number.
    pub fn add_rule(&mut self, rule: Rule) -> Result<(), Refusal>
        ensures refused { refused_by result ≡ rule_add_fault self.old rule }
        ensures rules { rules_in self.new ≡ (if is_ok result then rules_in self.old ++ rule ∷ [] else rules_in self.old) }
        ensures motifs { motifs_in self.new ≡ motifs_in self.old }
        ensures same { OnErr result (self.new ≡ self.old) }
    {
        if is_taken(self.rules.as_slice(), rule.name.letters()) {
            return Err(Refusal::NameTaken);
        }
        if !all_below(rule.motifs(), self.motifs.len()) {
            return Err(Refusal::UnknownMotif);
        }
        if self.rules.len() >= 8 {
            return Err(Refusal::NoRoom);
        }
        self.rules.push_reserved(rule);
        Ok(())
    }
}
