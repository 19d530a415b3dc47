// Plans, calendars and runs, built by hand.

use calendars::{Calendar, Terms};
use clock::{RunTime, WindowTime};
use events::Events;
use plan::{Bound, EventName, Job, Kind, Letter, MOST_BOUNDS, MOST_JOBS, Plan};
use runs::{Before, Phase, Run};

// ---- plans

// A bound between events of two jobs, starts or finishes.
fn between(kind: Kind, a: (Letter, u8), b: (Letter, u8), c: i32) -> Bound {
    Bound {
        a: EventName {
            letter: a.0,
            kind,
            job: a.1,
        },
        b: EventName {
            letter: b.0,
            kind,
            job: b.1,
        },
        c,
    }
}

// A bound between the starts of job 1.
pub fn starts(a: Letter, b: Letter, c: i32) -> Bound {
    starts_from(1, a, b, c)
}

// The same with another job in the first event.
pub fn starts_from(job: u8, a: Letter, b: Letter, c: i32) -> Bound {
    between(Kind::Start, (a, job), (b, 1), c)
}

// A bound between finishes of one job in this window and the next.
fn finishes(a: Letter, b: Letter, job: u8, c: i32) -> Bound {
    between(Kind::Finish, (a, job), (b, job), c)
}

// P with other bounds.
pub fn plan_between(first: Bound, second: Bound) -> Plan {
    let mut job = [Job {
        min: 0,
        max: 0,
        release: 0,
        deadline: 0,
    }; MOST_JOBS];
    job[0] = Job {
        min: 2,
        max: 4,
        release: 0,
        deadline: 10,
    };
    let mut bound = [first; MOST_BOUNDS];
    bound[1] = second;
    Plan {
        window: 10,
        rounds: 100,
        last: 1000,
        jobs: 1,
        job,
        bounds: 2,
        bound,
    }
}

// Plan P.
pub fn plan_p() -> Plan {
    plan_between(
        starts(Letter::Next, Letter::This, 12),
        starts(Letter::This, Letter::Next, -8),
    )
}

// P with another max.
pub fn plan_of_max(max: i32) -> Plan {
    let p = plan_p();
    let mut job = p.job;
    job[0] = Job { max, ..job[0] };
    Plan { job, ..p }
}

// P with the single bound `ns1,ts1,9`, in so many rounds.
pub fn plan_of_nine(rounds: u64) -> Plan {
    let single = starts(Letter::Next, Letter::This, 9);
    Plan {
        rounds,
        bounds: 1,
        ..plan_between(single, single)
    }
}

// Example 1 of document 002 as a plan, its first inequality read as Figure 4 uses it.
pub fn example_1() -> Plan {
    let first = Job {
        min: 5,
        max: 8,
        release: 0,
        deadline: 20,
    };
    let mut job = [first; MOST_JOBS];
    job[1] = Job {
        min: 8,
        max: 10,
        ..first
    };
    let near = Bound {
        a: EventName {
            letter: Letter::This,
            kind: Kind::Start,
            job: 2,
        },
        b: EventName {
            letter: Letter::This,
            kind: Kind::Finish,
            job: 1,
        },
        c: 5,
    };
    let mut bound = [near; MOST_BOUNDS];
    bound[1] = finishes(Letter::This, Letter::Next, 1, -15);
    bound[2] = finishes(Letter::Next, Letter::This, 1, 25);
    bound[3] = finishes(Letter::This, Letter::Next, 2, -18);
    bound[4] = finishes(Letter::Next, Letter::This, 2, 22);
    Plan {
        window: 20,
        rounds: 100,
        last: 1000,
        jobs: 2,
        job,
        bounds: 5,
        bound,
    }
}

// ---- calendars

// What a calendar says of a plan's one job: its low and high; the bits of the events that bound it from below, and the c of the first of them; and the same
// from above.
#[derive(Clone, Copy)]
pub struct OneJob {
    pub low: i64,
    pub high: i64,
    pub below: u64,
    pub least: i32,
    pub above: u64,
    pub most: i32,
}

// That of P.
pub const OF_P: OneJob = OneJob {
    low: 0,
    high: 6,
    below: 1,
    least: 8,
    above: 1,
    most: 12,
};

impl OneJob {
    pub fn calendar(self) -> Calendar {
        let mut c = calendars::empty_calendar();
        c.terms[0] = Terms {
            low: WindowTime(self.low),
            high: WindowTime(self.high),
            below: Events::of_bits(self.below),
            above: Events::of_bits(self.above),
        };
        c.at_least[0] = self.least;
        c.at_most[0] = self.most;
        c
    }
}

// ---- runs

// A run waits for a job of a window.
pub fn waiting(window: u64, job: usize) -> Phase {
    Phase::Waiting { window, job }
}

// It runs one since some start.
pub fn running(window: u64, job: usize, start: i64) -> Phase {
    Phase::Running {
        window,
        job,
        start: RunTime(start),
    }
}

// A run in some phase, whose previous window, if it has one, had a first job that ran from start to finish.
pub fn run_with(phase: Phase, before: Before, start: i64, finish: i64) -> Run {
    let mut seen = runs::new_run().seen;
    seen[0] = start;
    seen[1] = finish;
    Run {
        phase,
        before,
        seen,
    }
}

// A run in its first window.
pub fn first_run(phase: Phase) -> Run {
    run_with(phase, Before::Nothing, 0, 0)
}

// A run in window 1,000 or past it, where the job of the previous window started at 100,000: no time of this window is 8 to 12 after it.
pub fn shut_run(phase: Phase) -> Run {
    run_with(phase, Before::Window, 100_000, 100_002)
}
