// A letter of an order: L takes the motif to the left of the run done so far, R the one to the right.
#[derive(Clone, Copy, PartialEq, Eq, Debug)]
pub enum Letter {
    L,
    R,
}
