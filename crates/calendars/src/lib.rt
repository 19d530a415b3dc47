// The calendar of a settled plan, and its text.
#![tactic(auto)]

use clock::WindowTime;
use events::Events;

// What bounds the start of one job: the origin's two bounds on the window's own clock, and the events that bound it from below and
// from above. Events are numbered in the calendar's order: the previous window's events first, by job, s before f, then the present window's. The origin is
// not among them.
#[derive(Clone, Copy)]
pub struct Terms {
    pub low: WindowTime,
    pub high: WindowTime,
    pub below: Events,
    pub above: Events,
}

// The places of a calendar's c on one side: for each job a row with a place for each event of two windows. The last two places of a row, for the last
// job of this window, are before no start.
pub const MOST_TERMS: usize = plan::MOST_JOBS * events::MOST_EVENTS;

// A calendar. The c of event e for the job at place i stands at i * MOST_EVENTS + e, of `at_least` in start >= E + c and of `at_most` in
// start <= E + c; places that no bit names are no part of the calendar, and hold zeros where the calendar was made here.
// Stays: (a) arrays of all places side by side, since a calendar is fixed memory, and its user fills these three fields.
#[derive(Clone, Copy)]
pub struct Calendar {
    pub terms: [Terms; plan::MOST_JOBS],
    pub at_least: [i32; MOST_TERMS],
    pub at_most: [i32; MOST_TERMS],
}

// What is decided of a settled plan: the round in which it settles, and its calendar. Of any other plan the refusal of its verdict is reported instead.
#[derive(Clone, Copy)]
pub struct Decision {
    pub round: u64,
    pub calendar: Calendar,
}

// No calendar's text has more bytes.
pub const MOST_BYTES: usize = 32_768;

// The two sides of a start: the events that bound it from below, and those that bound it from above.
#[derive(Clone, Copy)]
enum Side {
    Below,
    Above,
}

mod decided;
mod decision_text;
mod print;
mod printed;
mod program;
mod recorded;
mod refused;
mod walk;

pub use decided::decide;
pub use decision_text::write_decision;
pub use printed::answer_read;
pub use program::answer;
pub use refused::refused_in_plan;
pub use walk::empty_calendar;
