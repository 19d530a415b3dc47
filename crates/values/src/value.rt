// A plan handed over as a value: what is decided of it, and the text that reports it.
ghost use Rattle.std.specs.Prelude.{◌≡◌, ◌≤◌, length};
ghost use Rattle.text.specs.Lent.{written};
ghost use Rattle.plan.specs.PlanWritten.{judged_plan};
ghost use Rattle.lines.specs.Written.{written_as};
ghost use Rattle.calendars.specs.CalendarText.{most_calendar_bytes};
ghost use Rattle.values.specs.Decisions.{value_decision, value_text};

use crate::plan_value::judge_plan;
use calendars::{Decision, decide, write_decision};
use lines::{Refusal, write_refused};
use plan::Plan;

// The round in which a plan settles, and its calendar; or its refusal: by 1, 2 or 3 with the line that its text would have, or by 4 or 5. The plan is judged
// first, as its text would be.
pub fn decide_value(p: Plan) -> Result<Decision, Refusal>
    ensures { result ≡ value_decision p (judged_plan p) }
{
    judge_plan(p)?;
    decide(p)
}

// The text that reports what is decided of a plan: its calendar, or the line of its refusal; 12 and not one byte changed, where it has no room.
pub fn answer_value(p: Plan, out: &mut [u8]) -> Result<usize, Refusal>
    ensures value { result ≡ written_as (value_text p (judged_plan p)) out.old }
    ensures out_after { out.new ≡ written (value_text p (judged_plan p)) out.old }
    ensures p_len_bound { length (value_text p (judged_plan p)) ≤ most_calendar_bytes }
{
    match judge_plan(p) {
        Ok(()) => write_decision(out, p.jobs, &decide(p)),
        Err(x) => write_refused(out, x),
    }
}
