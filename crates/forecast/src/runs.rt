// A number for each run of at most 12 motifs.
ghost use Rattle.std.specs.Prelude.{◌≡◌, ℕ, ◌<◌, cond, ◌&&◌, ◌==◌, slice_index};
ghost use Rattle.forecast.specs.Runs.{Put, is_run, number_at};

// A row for each first motif, and in it a number for each last one. Two numbers that are no run have no place in the
// table, so they read 0 whatever was put.
#[derive(Clone, Copy)]
pub struct Runs {
    pub(crate) rows: [[u64; 12]; 12],
}

// Two numbers and no struct, as the public calls take any two, also such as are no run.
fn is_run(i: usize, j: usize) -> bool
    ensures { result ≡ is_run i j }
{
    1 <= i && i <= j && j <= 12
}

// Puts the number in its place of the row. Of a cell that is written through the whole table, the proof does not know
// the row's length.
fn set(row: &mut [u64; 12], place: usize, number: u64)
    requires { place < 12 }
    ensures { (k : ℕ) → slice_index row.new k ≡ cond (k == place) number (slice_index row.old k) }
{
    row[place] = number;
}

impl Runs {
    // 0 for every run.
    pub fn zeros() -> Runs
        ensures { (i j : ℕ) → number_at result i j ≡ 0 }
    {
        Runs {
            rows: [[0; 12]; 12],
        }
    }

    pub fn at(&self, i: usize, j: usize) -> u64
        ensures { result ≡ number_at self.now i j }
    {
        if is_run(i, j) {
            return self.rows[i - 1][j - 1];
        }
        0
    }

    #[tactic(auto, using(crate::proofs::Cells::put_run))]
    pub fn put(&mut self, i: usize, j: usize, number: u64)
        ensures { Put i j number self.old self.new }
    {
        if is_run(i, j) {
            set(&mut self.rows[i - 1], j - 1, number);
        }
    }
}
