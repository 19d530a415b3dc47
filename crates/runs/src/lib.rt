// Runs: what a run has seen, the offer for its next start, and the steps that ask, start and finish.
#![tactic(auto)]

mod ends;
mod limits;
mod moves;
mod offers;
mod on_values;
mod seen;
mod steps;

use clock::RunTime;
use events::MOST_EVENTS;
pub use limits::jobs_done;
use lines::Refusal;
pub use moves::{move_run, new_run};
pub use on_values::{ask, finish_at, start_at, start_auto, take_step};
pub use steps::answer_step;

// The last time that a run or a step can name.
pub const LAST_TIME: i64 = 100_000_000_000_000_000;

// A run waits for the start of a job, or is running one since some start; windows and jobs are counted from 1. A run that waits in a
// window past the plan's last one is over.
#[derive(Clone, Copy)]
pub enum Phase {
    Waiting {
        window: u64,
        job: usize,
    },
    Running {
        window: u64,
        job: usize,
        start: RunTime,
    },
}

// What is before the present window of a run: nothing, or a window of which every event was seen.
#[derive(Clone, Copy)]
pub enum Before {
    Nothing,
    Window,
}

// Stays: (a) an array with what is before it beside: a run is fixed memory, and its times are bare numbers (decision 31).
// A run: its phase, what is before its present window, and the times that it has seen, on the run's clock. The time of event e of a calendar is at place
// e: the previous window's events first, then the present window's. Places of a previous window where there is none, and those of jobs that the present
// window has not finished, are no part of the run.
#[derive(Clone, Copy)]
pub struct Run {
    pub phase: Phase,
    pub before: Before,
    pub seen: [i64; MOST_EVENTS],
}

// The starts that are on offer: from the greatest lower bound to the least upper bound, both ends included.
#[derive(Clone, Copy)]
pub struct Offer {
    pub from: RunTime,
    pub to: RunTime,
}

// What there is for an ask or a start: the window, the job and its offer.
#[derive(Clone, Copy)]
pub struct Opening {
    pub window: u64,
    pub job: usize,
    pub offer: Offer,
}

// How a start chooses its time: at a given one, or at the offer's lower end.
// Stays: (d) as an Option<RunTime> the choice of `start=auto` would be a None, which reads as a start without a time.
#[derive(Clone, Copy)]
pub enum Choice {
    At(RunTime),
    Auto,
}

// A step of a session.
#[derive(Clone, Copy)]
pub enum Step {
    Ask,
    Start(Choice),
    Finish(RunTime),
}

// The answer to a step.
// Stays: (a) document 01 has these four answer lines, and a refusal is one of them, which a session prints as it goes on.
#[derive(Clone, Copy)]
pub enum Answer {
    Offered(Offer),
    Started {
        window: u64,
        job: usize,
        start: RunTime,
    },
    Final {
        window: u64,
        job: usize,
        finish: RunTime,
    },
    Refused(Refusal),
}

// The answer to a step and the run after it; where the step is refused, the run as it came in.
#[derive(Clone, Copy)]
pub struct Answered {
    pub answer: Answer,
    pub run: Run,
}
