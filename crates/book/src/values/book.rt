ghost use Rattle.std.specs.Prelude.{◌≡◌, ◌≤◌, true, vec_len, vec_capacity};
ghost use Rattle.book.specs.Entries.{all_known, distinct, motif_names, rule_names};

use entry::{Motif, Rule};

// The motifs and the rules of a house, each numbered from 0. Room for all of them is there from the start.
#[derive(Drop)]
pub struct Book {
    pub(crate) motifs: Vec<Motif>,
    pub(crate) rules: Vec<Rule>,
    ghost sixteen: { vec_len motifs ≤ 16 },
    ghost eight: { vec_len rules ≤ 8 },
    ghost motifroom: { 16 ≤ vec_capacity motifs },
    ghost ruleroom: { 8 ≤ vec_capacity rules },
    ghost motifnames: { distinct (motif_names motifs.items) ≡ true },
    ghost rulenames: { distinct (rule_names rules.items) ≡ true },
    ghost known: { all_known (vec_len motifs) rules.items ≡ true },
}
