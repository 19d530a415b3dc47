// The steps of a session, answered one after the other.
ghost use Rattle.std.specs.Prelude.{◌≡◌, ◌+◌, ◌*◌, ◌≤◌, length};
ghost use Rattle.text.specs.Lent.{Stored};
ghost use Rattle.lines.specs.Reading.{longest_text};
ghost use Rattle.runs.specs.Inside.{Inside};
ghost use Rattle.session.specs.AnswerText.{longest_answer};
ghost use Rattle.session.specs.Settled.{lines_dispatched};

use crate::StepLines;
use crate::print::{ends_session, put_answer};
use calendars::Calendar;
use plan::Plan;
use runs::Run;

// Stays: (d) a slice and a place in it one by one, as in `crates/text/src/write.rt`.
// The answers to the steps of some lines, from a run on, written from a place of out on; run becomes the run after them.
pub fn put_answers(
    lines: StepLines,
    p: &Plan,
    c: &Calendar,
    run: &mut Run,
    out: &mut [u8],
    at: usize,
) -> usize
    requires at_le_longest_text { at ≤ longest_text }
    requires inside { Inside p.now c.now run.old }
    ensures stored { Stored out.old at (lines_dispatched p.now c.now run.old lines.entry).lines out.new result }
    ensures run_value { run.new ≡ (lines_dispatched p.now c.now run.old lines.entry).run }
    ensures from_bound { result + 7 * lines.entry.at ≤ at + 7 * length lines.entry.text.now + longest_answer }
{
    let mut end = at;
    for step in lines {
        let st = match step {
            Ok(st) => st,
            Err(fault) => return lines::put_refused(out, end, fault.refusal),
        };
        let answer = runs::answer_step(p, c, run, st);
        end = put_answer(out, end, answer);
        runs::move_run(run, p.jobs, answer);
        if ends_session(answer) {
            return end;
        }
    }
    end
}
