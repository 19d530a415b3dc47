// The limits of a time, a run and a calendar that are passed in as values.

ghost use Rattle.std.specs.Prelude.{◌≡◌, ◌+◌, ◌-◌, ◌≤◌, ◌<◌};
ghost use Rattle.plan.specs.Limits.{most_jobs};
ghost use Rattle.events.specs.Bits.{bits_of, most_events};
ghost use Rattle.runs.specs.ValueLimits.{is_time, are_times, is_turn, is_phase, job_of_phase, is_run, is_out, is_side, are_terms, is_calendar};
ghost use Rattle.runs.specs.Steps.{is_step};

use crate::seen::{first_seen, time_at};
use crate::{Choice, LAST_TIME, Phase, Run, Step};
use calendars::{Calendar, MOST_TERMS};
use clock::RunTime;
use events::{Events, MOST_EVENTS};
use plan::{Plan, is_c};

// Whether a time is in 0..100,000,000,000,000,000.
pub fn is_time(t: RunTime) -> bool
    ensures { result ≡ is_time t }
{
    clock::is_between(RunTime(0), RunTime(LAST_TIME), t)
}

// Whether the events from the first one on, before count, have times inside the limits.
fn are_times(seen: &[i64; MOST_EVENTS], first: usize, count: usize) -> bool
    requires first_le_count { first ≤ count }
    requires count_le_most_events { count ≤ most_events }
    ensures { result ≡ are_times seen.now first (count - first) }
{
    for e in first..count {
        if !is_time(time_at(seen, e)) {
            return false;
        }
    }
    true
}

// Whether window j and job i are those of a turn, with such a last window and so many jobs.
fn is_turn(last: u64, jobs: usize, j: u64, i: usize) -> bool
    ensures { result ≡ is_turn last jobs j i }
{
    (1..=last).contains(&j) && (1..=jobs).contains(&i)
}

// Whether a phase is at a turn, or waiting for job 1 past the last window.
#[tactic(auto, unfolding(crate::specs::ValueLimits::is_phase))]
fn is_phase(last: u64, jobs: usize, phase: Phase) -> bool
    ensures { result ≡ is_phase last jobs phase }
{
    match phase {
        Phase::Waiting { window, job } => {
            is_turn(last, jobs, window, job) || (last.checked_add(1) == Some(window) && job == 1)
        }
        Phase::Running { window, job, start } => {
            is_turn(last, jobs, window, job) && is_time(start)
        }
    }
}

// How many jobs the present window has finished in a phase.
pub fn jobs_done(phase: Phase) -> usize
    ensures { result ≡ job_of_phase phase - 1 }
{
    match phase {
        Phase::Waiting { job, .. } | Phase::Running { job, .. } => job.saturating_sub(1),
    }
}

// Whether a run is one of the plan's: its phase, and every time that it has seen.
#[tactic(auto, using(crate::specs::InsideLaws::phase_done), unfolding(crate::specs::ValueLimits::is_run))]
pub fn is_run(p: &Plan, run: &Run) -> bool
    requires { p.now.jobs ≤ most_jobs }
    ensures { result ≡ is_run p.now run.now }
{
    if !is_phase(p.last, p.jobs, run.phase) {
        return false;
    }
    let first = first_seen(p.jobs, run.before);
    let ahead = 2 * (p.jobs + jobs_done(run.phase));
    are_times(&run.seen, first, ahead)
}

// Whether the time that a step brings with it is inside the limits.
pub fn is_step(st: Step) -> bool
    ensures { result ≡ is_step st }
{
    match st {
        Step::Ask | Step::Start(Choice::Auto) => true,
        Step::Start(Choice::At(t)) | Step::Finish(t) => is_time(t),
    }
}

// Whether event e is in the set and its c is out of the range of a bound's c.
fn is_out(set: Events, e: usize, c: i32) -> bool
    ensures { result ≡ is_out (bits_of set) e c }
{
    set.has(e) && !is_c(i64::from(c))
}

// Whether one side of the job at place i names events before its start only, each with a c in range.
fn is_side(jobs: usize, i: usize, set: Events, cs: &[i32; MOST_TERMS]) -> bool
    requires jobs_le_most_jobs { jobs ≤ most_jobs }
    requires i_lt_most_jobs { i < most_jobs }
    ensures { result ≡ is_side jobs i (bits_of set) cs.now }
{
    let count = 2 * (jobs + i);
    if !set.is_below(count) {
        return false;
    }
    for e in 0..count {
        if is_out(set, e, cs[i * MOST_EVENTS + e]) {
            return false;
        }
    }
    true
}

// Whether the terms of the job at place i are inside the limits, with the c of both sides.
#[tactic(auto, unfolding(crate::specs::ValueLimits::are_terms_of))]
fn are_terms(p: &Plan, c: &Calendar, i: usize) -> bool
    requires jobs_le_most_jobs { p.now.jobs ≤ most_jobs }
    requires i_lt_most_jobs { i < most_jobs }
    ensures { result ≡ are_terms p.now c.now i }
{
    let t = c.terms[i];
    is_c(t.low.0)
        && is_c(t.high.0)
        && is_side(p.jobs, i, t.below, &c.at_least)
        && is_side(p.jobs, i, t.above, &c.at_most)
}

// Whether a calendar is inside the limits, for each job of the plan.
pub fn is_calendar(p: &Plan, c: &Calendar) -> bool
    requires { p.now.jobs ≤ most_jobs }
    ensures { result ≡ is_calendar p.now c.now }
{
    for i in 0..p.jobs {
        if !are_terms(p, c, i) {
            return false;
        }
    }
    true
}
