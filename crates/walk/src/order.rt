ghost use Rattle.std.specs.Prelude.{◌≡◌, ◌≤◌, length};
ghost use Rattle.walk.specs.Asked.{order_of};
ghost use Rattle.walk.specs.Walk.{is_order_of, lefts, rights};

use crate::letter::Letter;

// An order of looking: the seed, and a letter for each further motif. Any numbers may stand in it: whether it is one of
// a rule's orders is told where it is priced or laid.
#[derive(Clone, Copy)]
pub struct Order<'a> {
    pub seed: usize,
    pub letters: &'a [Letter],
}

impl Order<'_> {
    // How many motifs are taken to the left. It and the next stay two: a letter to count would be told by `==`, whose
    // answer the clauses `lefts` and `rights` would each have to be tied to.
    pub fn lefts(self) -> usize
        ensures value { result ≡ lefts (order_of self.entry).letters }
        ensures bound { result ≤ length (order_of self.entry).letters }
    {
        self.letters
            .iter()
            .filter(|letter| matches!(letter, Letter::L))
            .count()
    }

    // How many motifs are taken to the right.
    pub fn rights(self) -> usize
        ensures value { result ≡ rights (order_of self.entry).letters }
        ensures bound { result ≤ length (order_of self.entry).letters }
    {
        self.letters
            .iter()
            .filter(|letter| matches!(letter, Letter::R))
            .count()
    }

    // Whether it is an order of the rules of so many motifs.
    pub fn is_of(self, motifs: usize) -> bool
        ensures { result ≡ is_order_of motifs (order_of self.entry) }
    {
        1 <= self.seed
            && self.lefts() == self.seed - 1
            && self.seed <= motifs
            && self.rights() == motifs - self.seed
    }
}
