// Runs on values, step by step.

use crate::made::{OF_P, example_1, plan_p, running, shut_run, waiting};
use crate::told::{title, told};
use calendars::Calendar;
use clock::RunTime;
use plan::Plan;
use runs::{Choice, Run, Step};

// A plan and its calendar, of which steps are asked.
#[derive(Clone, Copy)]
struct Dispatcher {
    p: Plan,
    c: Calendar,
}

impl Dispatcher {
    fn ask(&self, rt: &impl Print, run: Run) -> Run {
        told(rt, runs::ask(self.p, self.c, run))
    }

    fn start(&self, rt: &impl Print, run: Run, t: i64) -> Run {
        told(rt, runs::start_at(self.p, self.c, run, RunTime(t)))
    }

    fn start_auto(&self, rt: &impl Print, run: Run) -> Run {
        told(rt, runs::start_auto(self.p, self.c, run))
    }

    fn finish(&self, rt: &impl Print, run: Run, t: i64) -> Run {
        told(rt, runs::finish_at(self.p, self.c, run, RunTime(t)))
    }

    fn step(&self, rt: &impl Print, run: Run, st: Step) -> Run {
        told(rt, runs::take_step(self.p, self.c, run, st))
    }
}

// One with the calendar that is decided of its plan.
fn decided(p: Plan) -> Dispatcher {
    Dispatcher {
        p,
        c: values::decide_value(p).map_or(calendars::empty_calendar(), |d| d.calendar),
    }
}

// ---- P2: two windows, and the offer of the third; and the same steps, each passed in as a step

pub fn session_of_p(rt: &impl Print) {
    let d = decided(plan_p());
    title(rt, "P2");
    let mut run = d.ask(rt, runs::new_run());
    run = d.start(rt, run, 3);
    run = d.finish(rt, run, 7);
    run = d.ask(rt, run);
    run = d.start(rt, run, 16);
    run = d.start_auto(rt, run);
    run = d.finish(rt, run, 16);
    run = d.finish(rt, run, 13);
    d.ask(rt, run);
    title(rt, "the same as steps, up to the second start");
    run = runs::new_run();
    let steps = [
        Step::Ask,
        Step::Start(Choice::At(RunTime(3))),
        Step::Finish(RunTime(7)),
        Step::Start(Choice::At(RunTime(16))),
        Step::Start(Choice::Auto),
    ];
    for st in steps {
        run = d.step(rt, run, st);
    }
}

// ---- refusals

// 7 while none runs, and 6 while one does. Then 9 one before min and one after max; and at max it is final. Then 10 in every way in which a start is asked for,
// and 7 for a finish.
fn over(rt: &impl Print, d: &Dispatcher) {
    let mut run = d.finish(rt, runs::new_run(), 1);
    run = d.start_auto(rt, run);
    run = d.ask(rt, run);
    run = d.start(rt, run, 1);
    for t in [1, 5, 4] {
        run = d.finish(rt, run, t);
    }
    run = d.ask(rt, run);
    run = d.start(rt, run, 77);
    run = d.start_auto(rt, run);
    d.finish(rt, run, 5);
}

// 11, and before it 10 and 6.
fn shut(rt: &impl Print, d: &Dispatcher) {
    let asked = d.ask(rt, shut_run(waiting(1000, 1)));
    d.start_auto(rt, asked);
    d.ask(rt, shut_run(waiting(1001, 1)));
    d.ask(rt, shut_run(running(1000, 1, 7)));
}

pub fn refusals(rt: &impl Print) {
    let of_p = Dispatcher {
        p: plan_p(),
        c: OF_P.calendar(),
    };
    let one_window = Dispatcher {
        p: Plan { last: 1, ..of_p.p },
        ..of_p
    };
    title(rt, "a run of one window");
    over(rt, &one_window);
    title(rt, "an empty offer");
    shut(rt, &of_p);
}

// ---- Figure 4 of document 002: s1 = 2 and f1 = 9, then s2 = 9 and f2 = 17

pub fn first_rows(rt: &impl Print) {
    let d = decided(example_1());
    title(rt, "Figure 4");
    let mut run = runs::new_run();
    for (s, f) in [(2, 9), (9, 17)] {
        run = d.ask(rt, run);
        run = d.start(rt, run, s);
        run = d.finish(rt, run, f);
    }
    d.ask(rt, run);
}
