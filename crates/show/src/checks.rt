// The test of a show: whether it can be opened.
ghost use Rattle.std.specs.Prelude.{◌≡◌, ℕ, ◌*◌, ◌≤◌, length, take, IfOk};
ghost use Rattle.refusal.specs.Checks.{refused_by};
ghost use Rattle.show.specs.Faults.{pass_all, show_fault};
ghost use Rattle.show.specs.Numbers.{numbers};
ghost use Rattle.show.specs.Stretches.{reads};

use crate::stretch::Stretch;
use crate::tested::ShowTest;
use refusal::Refusal;

// The stretches of a strip's first 24 numbers.
fn first_stretches(strip: &[usize]) -> [Stretch; 12]
    requires { 24 ≤ length strip.now }
    ensures len { length result ≡ 12 }
    ensures value { numbers result ≡ take 24 strip.now }
{
    let mut stretches = [Stretch { start: 0, end: 0 }; 12];
    for (k, [start, end]) in strip.as_chunks::<2>().0[..12].iter().enumerate() {
        stretches[k] = Stretch {
            start: *start,
            end: *end,
        };
    }
    stretches
}

// Whether the stretches lie in the ink and have at most 64 boxes.
fn all_pass(stretches: &[Stretch], ink_len: usize) -> bool
    ensures { result ≡ pass_all (numbers stretches.now) ink_len (length stretches.now) }
{
    let mut room = 64;
    for stretch in stretches {
        if stretch.start > stretch.end || stretch.end > ink_len || stretch.len() > room {
            return false;
        }
        room -= stretch.len();
    }
    true
}

impl ShowTest {
    ghost use Rattle.show.specs.Held.{count_of, strip_of};

    // Tests the first m stretches of any strip on any ink, and holds them where they pass.
    pub fn new(strip: &[usize], m: usize, ink: &[u8]) -> Result<ShowTest, Refusal>
        ensures refused { refused_by result ≡ show_fault strip.now m (length ink.now) }
        ensures value { IfOk result (λ t. (count_of t ≡ m) × (strip_of t ≡ take 24 strip.now)) }
        ensures meaning { IfOk result (λ t. ((i byte : ℕ) → reads (strip_of t) (count_of t) i byte ≡ reads strip.now m i byte)) }
    {
        if strip.len() < 24 {
            return Err(Refusal::ShortStrip);
        }
        if m < 1 || m > 12 {
            return Err(Refusal::BadShow);
        }
        let stretches = first_stretches(strip);
        if !all_pass(&stretches[..m], ink.len()) {
            return Err(Refusal::BadShow);
        }
        Ok(ShowTest {
            strip: stretches,
            m,
        })
    }
}
