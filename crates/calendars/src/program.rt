// The calendar program, from the bytes of its input to those of its output.
ghost use Rattle.std.specs.Prelude.{◌≡◌, ◌≤◌, length};
ghost use Rattle.text.specs.Lent.{written};
ghost use Rattle.lines.specs.Written.{written_as};
ghost use Rattle.calendars.specs.CalendarText.{calendar_output, most_calendar_bytes};

use crate::decided::decide;
use crate::decision_text::write_decision;
use lines::{Refusal, write_refused};

// The answer to a plan's text: the calendar of a settled plan, or the line of the plan's refusal; 12 and not one byte changed, where it has no room. 32,768
// bytes are room for every text.
pub fn answer(text: &[u8], out: &mut [u8]) -> Result<usize, Refusal>
    ensures value { result ≡ written_as (calendar_output text.now) out.old }
    ensures out_after { out.new ≡ written (calendar_output text.now) out.old }
    ensures text_len_bound { length (calendar_output text.now) ≤ most_calendar_bytes }
{
    match plan::read_plan(text) {
        Ok(read) => write_decision(out, read.plan.jobs, &decide(read.plan)),
        Err(fault) => write_refused(out, fault.refusal),
    }
}
