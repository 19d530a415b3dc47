// The way from a window's own clock to the run's.

ghost use Rattle.std.specs.Prelude.{◌≡◌};
ghost use Rattle.clock.specs.Clock.{begins_at, on_run};
ghost use Rattle.clock.specs.Spans.{WindowInRange, NearBeginning};

use crate::{RunTime, WindowTime};

// When window j begins on the run's clock.
fn begins_at(window: i32, j: u64) -> RunTime
    requires { WindowInRange window j }
    ensures { result ≡ begins_at window j }
{
    RunTime((j - 1) as i64 * i64::from(window))
}

// A time of window j, on the run's clock.
pub fn on_run(window: i32, j: u64, t: WindowTime) -> RunTime
    requires window_in_range { WindowInRange window j }
    requires near_beginning { NearBeginning t.0 }
    ensures { result ≡ on_run window j t }
{
    RunTime(begins_at(window, j).0 + t.0)
}
