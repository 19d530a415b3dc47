// Plans: their types, and their texts read.
#![tactic(auto)]

// ---- sizes

// The most jobs and the most bounds that a plan can have.
pub const MOST_JOBS: usize = 9;

pub const MOST_BOUNDS: usize = 64;

// The same, as a number of a plan's line.
const JOBS_AT_MOST: i32 = MOST_JOBS as i32;

const BOUNDS_AT_MOST: i32 = MOST_BOUNDS as i32;

// ---- the plan

// The limits of one job, in whole milliseconds; release and deadline are on the window's own clock.
#[derive(Clone, Copy)]
pub struct Job {
    pub min: i32,
    pub max: i32,
    pub release: i32,
    pub deadline: i32,
}

impl Job {
    // What stands in a place that is no part of a plan.
    const NONE: Job = Job {
        min: 0,
        max: 0,
        release: 0,
        deadline: 0,
    };
}

// The window letter of an event: t this window, n the next one.
#[derive(Clone, Copy, PartialEq, Eq)]
pub enum Letter {
    This,
    Next,
}

// The kind of an event: s start, f finish.
#[derive(Clone, Copy, PartialEq, Eq)]
pub enum Kind {
    Start,
    Finish,
}

// An event as a plan names it, as `nf2`: a window letter, a kind and a job number.
#[derive(Clone, Copy, PartialEq, Eq)]
pub struct EventName {
    pub letter: Letter,
    pub kind: Kind,
    pub job: u8,
}

impl EventName {
    // An event of no job.
    const NONE: EventName = EventName {
        letter: Letter::This,
        kind: Kind::Start,
        job: 0,
    };
}

// A given bound, `bound=A,B,c`: A - B <= c.
#[derive(Clone, Copy)]
pub struct Bound {
    pub a: EventName,
    pub b: EventName,
    pub c: i32,
}

impl Bound {
    // What stands in a place that is no part of a plan.
    const NONE: Bound = Bound {
        a: EventName::NONE,
        b: EventName::NONE,
        c: 0,
    };
}

// A plan. The jobs are the first `jobs` places of `job`, the bounds the first `bounds` places of `bound`; the places beyond them are
// no part of the plan, and the reader leaves zeros there.
// Stays: (a) arrays with a count beside them, since nothing allocates, and a plan as a value is judged whatever it holds, too many jobs as well.
#[derive(Clone, Copy)]
pub struct Plan {
    pub window: i32,
    pub rounds: u64,
    pub last: u64,
    pub jobs: usize,
    pub job: [Job; MOST_JOBS],
    pub bounds: usize,
    pub bound: [Bound; MOST_BOUNDS],
}

// The first four lines of a plan.
#[derive(Clone, Copy)]
struct First {
    window: i32,
    rounds: u64,
    last: u64,
    jobs: usize,
}

// A plan as it was read, the place where it ended, and the number of the line that begins there.
#[derive(Clone, Copy)]
pub struct PlanRead {
    pub plan: Plan,
    pub at: usize,
    pub line: usize,
}

mod bound_line;
mod bounds_lines;
mod first_lines;
mod job_lines;
mod jobs_lines;
mod line_at;
mod names;
mod number_line;
mod pairs;
mod reader;

pub use bound_line::{is_c, judge_bound};
pub use pairs::pair_number;
pub use reader::{read_head, read_plan};
