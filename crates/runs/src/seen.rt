// What a run has seen: the times of events, as bare numbers on the run's clock. Only the two functions that read and write a place open or make a `RunTime`.

ghost use Rattle.std.specs.Prelude.{◌≡◌, ◌+◌, ◌*◌, ◌≤◌, ◌<◌};
ghost use Rattle.plan.specs.Limits.{most_jobs};
ghost use Rattle.events.specs.Bits.{most_events};
ghost use Rattle.runs.specs.Seen as seen;

use crate::Before;
use clock::RunTime;
use events::MOST_EVENTS;

// The time of event e.
pub fn time_at(times: &[i64; MOST_EVENTS], e: usize) -> RunTime
    requires { e < most_events }
    ensures { result ≡ seen.time_at times.now e }
{
    RunTime(times[e])
}

// The time of event e, put.
fn put_time(times: &mut [i64; MOST_EVENTS], e: usize, t: RunTime)
    requires { e < most_events }
    ensures { times.new ≡ seen.time_put times.old e t }
{
    times[e] = t.0;
}

// The first event that a run has seen, with so many jobs in a window.
pub fn first_seen(jobs: usize, before: Before) -> usize
    requires { jobs ≤ most_jobs }
    ensures { result ≡ seen.first_seen jobs before }
{
    match before {
        Before::Nothing => 2 * jobs,
        Before::Window => 0,
    }
}

// The start and the finish of the job at place i of the present window, put.
#[tactic(auto, unfolding(crate::specs::Seen::job_seen))]
pub fn put_job(
    times: &mut [i64; MOST_EVENTS],
    jobs: usize,
    i: usize,
    start: RunTime,
    finish: RunTime,
)
    requires jobs_le_most_jobs { jobs ≤ most_jobs }
    requires i_lt_jobs { i < jobs }
    ensures { times.new ≡ seen.job_seen jobs i start finish times.old }
{
    let first = 2 * (jobs + i);
    put_time(times, first, start);
    put_time(times, first + 1, finish);
}

// A window of n events has ended: what was the present window is the previous one.
pub fn put_to_front(times: &mut [i64; MOST_EVENTS], n: usize)
    requires { n + n ≤ most_events }
    ensures { times.new ≡ seen.to_front n times.old }
{
    times.copy_within(n..2 * n, 0);
}
