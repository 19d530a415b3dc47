// 'A value out of limits (2,0)': each limit of a run, a calendar and a time, from outside, and some from inside.

use crate::made::{OF_P, OneJob, first_run, plan_p, run_with, running, shut_run, waiting};
use crate::told::{title, told};
use clock::RunTime;
use plan::Plan;
use runs::{Before, Run};

// ---- runs

// An ask of P in a run.
fn asked(rt: &impl Print, run: Run) {
    told(rt, runs::ask(plan_p(), OF_P.calendar(), run));
}

pub fn of_runs(rt: &impl Print) {
    title(rt, "runs outside the limits");
    let phases = [
        // Windows 0 and 1,002, and window 1,001 for another job than the first, and running; then window 1,001, in which the run is over.
        waiting(0, 1),
        waiting(1002, 1),
        waiting(1001, 2),
        running(1001, 1, 7),
        waiting(1001, 1),
        // Jobs 0 and 2 of one, and a start before 0.
        waiting(1, 0),
        waiting(1, 2),
        running(1, 1, -1),
    ];
    for phase in phases {
        asked(rt, first_run(phase));
    }
    // The times of the previous window: the last time, one after it, and one before 0; and the same without that window, of which they are no part.
    let times = [
        (2, Before::Window, 3, 100_000_000_000_000_000),
        (2, Before::Window, 3, 100_000_000_000_000_001),
        (2, Before::Window, -1, 7),
        (1, Before::Nothing, 3, 100_000_000_000_000_001),
    ];
    for (window, before, start, finish) in times {
        asked(rt, run_with(waiting(window, 1), before, start, finish));
    }
}

// ---- calendars

pub fn of_calendars(rt: &impl Print) {
    title(rt, "calendars outside the limits");
    let jobs = [
        // Low at its least and below it, and high above its greatest.
        OneJob {
            low: -1_000_000_000,
            ..OF_P
        },
        OneJob {
            low: -1_000_000_001,
            ..OF_P
        },
        OneJob {
            high: 1_000_000_001,
            ..OF_P
        },
        // From below and from above: the start of the job itself, and a c out of range; and a c that no bit names, which is no part of the calendar.
        OneJob { below: 5, ..OF_P },
        OneJob { above: 5, ..OF_P },
        OneJob {
            least: -1_000_000_001,
            ..OF_P
        },
        OneJob {
            most: 1_000_000_001,
            ..OF_P
        },
        OneJob {
            below: 0,
            least: -1_000_000_001,
            ..OF_P
        },
    ];
    for job in jobs {
        told(rt, runs::ask(plan_p(), job.calendar(), runs::new_run()));
    }
}

// ---- times of steps

// A start and a finish outside the range, which come before 8 and 7; and the last time, which is inside it.
fn given(rt: &impl Print) {
    let p = plan_p();
    let c = OF_P.calendar();
    let run = runs::new_run();
    told(rt, runs::start_at(p, c, run, RunTime(-1)));
    told(
        rt,
        runs::finish_at(p, c, run, RunTime(100_000_000_000_000_001)),
    );
    told(
        rt,
        runs::start_at(p, c, run, RunTime(100_000_000_000_000_000)),
    );
}

// An offer from -5 on, which no plan has: an auto start there is outside the range of T, and one at 0 is not.
fn chosen(rt: &impl Print) {
    let p = plan_p();
    let c = OneJob { low: -5, ..OF_P }.calendar();
    let run = runs::new_run();
    told(rt, runs::ask(p, c, run));
    told(rt, runs::start_auto(p, c, run));
    told(rt, runs::start_at(p, c, run, RunTime(0)));
}

// The plan's own refusal comes before 2,0.
fn ordered(rt: &impl Print) {
    let p = Plan {
        window: 0,
        ..plan_p()
    };
    let c = OneJob { below: 5, ..OF_P }.calendar();
    told(rt, runs::ask(p, c, shut_run(waiting(1001, 2))));
}

pub fn of_times(rt: &impl Print) {
    title(rt, "times outside the limits");
    given(rt);
    chosen(rt);
    title(rt, "a plan outside its own");
    ordered(rt);
}
