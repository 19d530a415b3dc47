// The text of a decision, written into a lent slice.
ghost use Rattle.std.specs.Prelude.{◌≡◌, ◌≤◌, length};
ghost use Rattle.text.specs.Lent.{written};
ghost use Rattle.plan.specs.Limits.{most_jobs};
ghost use Rattle.lines.specs.Written.{written_as};
ghost use Rattle.calendars.specs.CalendarText.{decision_text, most_calendar_bytes};

use crate::print::put_calendar;
use crate::{Decision, MOST_BYTES};
use lines::{Refusal, Text, put_refused};

// What is decided of a plan with so many jobs.
#[derive(Clone, Copy)]
struct Decided<'a> {
    jobs: usize,
    decision: &'a Result<Decision, Refusal>,
}

// The calendar, or the line of the refusal.
impl<'a> Text for Decided<'a> {
    ghost text = { λ d. decision_text d.jobs d.decision.now };

    ghost can_put = { λ d. d.jobs ≤ most_jobs };

    ghost most = { λ _. most_calendar_bytes };

    fn most(&self) -> usize {
        MOST_BYTES
    }

    fn put(&self, out: &mut [u8]) -> usize {
        match self.decision {
            Ok(d) => put_calendar(out, 0, self.jobs, d.round, &d.calendar),
            Err(x) => put_refused(out, 0, *x),
        }
    }
}

// The whole text of a decision, or 12 and not one byte changed.
pub fn write_decision(
    out: &mut [u8],
    jobs: usize,
    decision: &Result<Decision, Refusal>,
) -> Result<usize, Refusal>
    requires { jobs ≤ most_jobs }
    ensures value { result ≡ written_as (decision_text jobs decision.now) out.old }
    ensures out_after { out.new ≡ written (decision_text jobs decision.now) out.old }
    ensures c_len_bound { length (decision_text jobs decision.now) ≤ most_calendar_bytes }
{
    lines::write(&Decided { jobs, decision }, out)
}
