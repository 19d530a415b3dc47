// Sessions: a plan followed by steps, and the answer text to them.
#![tactic(auto)]

ghost use Rattle.std.specs.Prelude.{◌+◌, ◌≤◌, length};
ghost use Rattle.lines.specs.Reading.{longest_text};
ghost use Rattle.runs.specs.Inside.{Inside};
ghost use Rattle.runs.specs.Steps.{new_run};

use calendars::Calendar;
use plan::Plan;

// No step's answer has more bytes.
const LONGEST_ANSWER: usize = 56;

// No answer has more bytes: a step has at least 8.
pub const MOST_BYTES: usize = 7 * lines::LONGEST_TEXT + LONGEST_ANSWER;

// The step lines of a text that are left to read: where the next one begins, and its number.
#[derive(Clone, Copy)]
struct StepLines<'a> {
    text: &'a [u8],
    at: usize,
    line: usize,
    ghost placed: { at ≤ length text.now },
    ghost short: { length text.now ≤ longest_text },
    ghost numbered: { line ≤ at + 1 },
}

// A session whose plan is settled: the plan, its calendar, and the step lines after it.
#[derive(Clone, Copy)]
struct Session<'a> {
    plan: Plan,
    calendar: Calendar,
    lines: StepLines<'a>,
    ghost inside: { Inside plan calendar new_run },
}

mod print;
mod printed;
mod program;
mod read;
mod refused;
mod settled;
mod steps;
mod written;

pub use printed::answer_read;
pub use program::answer;
pub use refused::refused_in_session;
