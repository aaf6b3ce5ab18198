use few::Few;
use walk::{Letter, Order};

// The planned order, and its price.
#[derive(Clone, Copy)]
pub struct Planned {
    pub seed: usize,
    pub(crate) letters: Few<Letter, 11>,
    pub price: u64,
}

impl Planned {
    ghost use Rattle.std.specs.Prelude.{◌≡◌};
    ghost use Rattle.planner.specs.Letters.{planned_order};
    ghost use Rattle.walk.specs.Asked.{order_of};

    pub fn order(&self) -> Order<'_>
        ensures { order_of result ≡ planned_order self.now }
    {
        Order {
            seed: self.seed,
            letters: self.letters.as_slice(),
        }
    }
}
