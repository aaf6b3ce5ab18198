// The call that makes a forecast from any numbers, and those that read it.
ghost use Rattle.std.specs.Prelude.{◌≡◌, ℕ, ◌≤◌, IfOk};
ghost use Rattle.forecast.specs.Forecasts.{boxes_of, forecast_at, forecast_fault, is_row_large, is_some_large};
ghost use Rattle.forecast.specs.Runs.{number_at};
ghost use Rattle.refusal.specs.Checks.{refused_by};

use crate::runs::Runs;
use crate::value::Forecast;
use refusal::Refusal;

// Whether a run that begins with motif i has too large a number.
fn row_large(runs: &Runs, i: usize) -> bool
    ensures { result ≡ is_row_large (number_at runs.now i) }
{
    (1..13).any(|j| runs.at(i, j) > 1_000_000_000)
}

fn some_large(runs: &Runs) -> bool
    ensures { result ≡ is_some_large (number_at runs.now) }
{
    (1..13).any(|i| row_large(runs, i))
}

impl Forecast {
    #[tactic(auto, using(crate::proofs::Cells::all_small))]
    pub fn new(boxes: usize, runs: Runs) -> Result<Forecast, Refusal>
        ensures refused { refused_by result ≡ forecast_fault boxes (number_at runs) }
        ensures value { IfOk result (λ f. (boxes_of f ≡ boxes) × ((i j : ℕ) → forecast_at f i j ≡ number_at runs i j)) }
    {
        if boxes > 20000 {
            return Err(Refusal::SourceTooLong);
        }
        if some_large(&runs) {
            return Err(Refusal::ForecastTooLarge);
        }
        Ok(Forecast { boxes, runs })
    }

    // The number of boxes, at most 20,000.
    pub fn length(&self) -> usize
        ensures value { result ≡ boxes_of self.now }
        ensures bound { result ≤ 20000 }
    {
        self.boxes
    }

    // The number of the run i to j, 0 where there is no such run.
    pub fn at(&self, i: usize, j: usize) -> u64
        ensures value { result ≡ forecast_at self.now i j }
        ensures bound { result ≤ 1_000_000_000 }
    {
        self.runs.at(i, j)
    }
}
