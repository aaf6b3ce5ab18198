// Longest runs of bytes of one sort, met from left to right.
ghost use Rattle.std.specs.Prelude.{◌≡◌, ℕ, ◌<◌, Bool, not, List, length, IfSome};
ghost use Rattle.std.specs.Fn.{FnReturnsAt};
ghost use Rattle.std.specs.Iterator.{ActsAsAt};
ghost use Rattle.word.specs.Longest.{RunsLaw};
ghost use Rattle.word.specs.Runs.{Sort, first_fault_of};

// The place of the first run that is not sound, where the runs stand between gaps.
pub(crate) fn first_fault<G: Fn(&u8) -> bool, S: Fn(&[u8]) -> bool>(
    field: &[u8],
    is_gap: G,
    is_sound: S,
) -> Option<usize>
    ghost sort: { Sort }
    requires gap_callable { (f : _) (a : _) → G.FnMut.pre f a }
    requires sound_callable { S.IsAlwaysCallable is_sound }
    requires gap { ActsAsAt G.FnMut is_gap (λ b. not (sort.part b)) }
    requires sound { (run : List ℕ) (t : Bool) → FnReturnsAt S.Fn is_sound run t → t ≡ sort.sound run }
    ensures within { IfSome result (λ q. q < length field.now) }
    ensures value { result ≡ first_fault_of sort.part sort.sound field.now }
{
    // Summed up as it goes: `split` gives the runs, but not their places.
    let mut from = 0;
    for run in field.split(is_gap) {
        if !run.is_empty() && !is_sound(run) {
            return Some(from);
        }
        from += run.len() + 1;
    }
    None
}

// The first fault is that of the first longest run that is not sound, and there is none where all of them are.
pub fn runs_stand()
    ensures { RunsLaw }
{}
