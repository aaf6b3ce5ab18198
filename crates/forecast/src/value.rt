ghost use Rattle.std.specs.Prelude.{ℕ, ◌≤◌};
ghost use Rattle.forecast.specs.Runs.{number_at};

use crate::runs::Runs;

// How long a row is, and how many partial placements of each run it has, counted or guessed.
#[derive(Clone, Copy)]
pub struct Forecast {
    pub(crate) boxes: usize,
    pub(crate) runs: Runs,
    ghost short: { boxes ≤ 20000 },
    ghost small: { (i j : ℕ) → number_at runs i j ≤ 1_000_000_000 },
}
