// The two ends of an offer, worked out along the events that bound a start.

ghost use Rattle.std.specs.Prelude.{ℤ, ◌≡◌};
ghost use Rattle.events.specs.BitsLaws.{EachOf};
ghost use Rattle.runs.specs.Offers.{term_at};
ghost use Rattle.runs.specs.Ends.{end_over, PicksAs};
ghost use Rattle.runs.specs.Inside.{TermInside};

use crate::seen::time_at;
use calendars::MOST_TERMS;
use clock::RunTime;
use events::{MOST_EVENTS, Members};

// An end: what is picked among a time and the terms of some events. The c of event e is at place row + e.
pub fn end_of<F: Fn(RunTime, RunTime) -> RunTime>(
    pick: F,
    mut end: RunTime,
    events: Members,
    seen: &[i64; MOST_EVENTS],
    cs: &[i32; MOST_TERMS],
    row: usize,
) -> RunTime
    requires callable { F.IsAlwaysCallable pick }
    requires terms_fit { EachOf (TermInside seen.now cs.now row) events }
    ensures { (picked : ℤ → ℤ → ℤ) → PicksAs (F.post pick) picked
        → result.0 ≡ end_over picked (term_at seen.now cs.now row) end.0 events }
{
    for e in events {
        end = pick(end, time_at(seen, e) + cs[row + e]);
    }
    end
}
