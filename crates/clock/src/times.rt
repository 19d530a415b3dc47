// Times on the run's clock, moved, and between two others. Which of two is the earlier one is derived with the type.

ghost use Rattle.std.specs.Prelude.{◌≡◌, ◌+ℤ◌};
ghost use Rattle.std.specs.Int.{w64};
ghost use Rattle.std.proofs.Common.{SFits};
ghost use Rattle.clock.specs.Clock.{is_between, moved_by};

use crate::RunTime;
use std::ops::Add;

// Stays: (a) a function of its own: its public contract says of two ends what a range's does not name.
// Whether t is from one time to another, both included.
pub fn is_between(from: RunTime, to: RunTime, t: RunTime) -> bool
    ensures { result ≡ is_between from to t }
{
    (from..=to).contains(&t)
}

// The time c milliseconds after t, or before it where c is negative.
impl Add<i32> for RunTime {
    type Output = RunTime;

    ghost can_add = { λ t c. SFits w64 (t.0 +ℤ c) };

    ghost add_gives = { λ t c u. u ≡ moved_by t c };

    fn add(self, c: i32) -> RunTime {
        RunTime(self.0 + i64::from(c))
    }
}
