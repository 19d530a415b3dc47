// 'Earliest and latest on the window's own clock', and for the next window with `window` added.
ghost use Rattle.std.specs.Prelude.{◌≡◌, ◌+◌, ◌<◌};
ghost use Rattle.plan.specs.Accepted.{Accepted};
ghost use Rattle.bounds.specs.Events.{job_at, shift};
ghost use Rattle.bounds.specs.Held.{TimesHeld};

use super::{Spans, Table};
use plan::{Job, Plan};

// The job at a place.
fn job_at(p: Plan, k: usize) -> Job
    requires { (Accepted p) × (k < p.jobs + p.jobs) }
    ensures { result ≡ job_at p k }
{
    if k < p.jobs {
        return p.job[k];
    }
    let i = k - p.jobs;
    p.job[i]
}

// By how much the events of a place are later than on the window's own clock.
fn shift_at(p: Plan, k: usize) -> i32
    ensures { result ≡ shift p k }
{
    if k < p.jobs {
        return 0;
    }
    p.window
}

// The times of all events of two windows.
pub fn times_of(p: Plan) -> Spans
    requires { Accepted p }
    ensures { TimesHeld p result.early result.late }
{
    let mut early = [0; Table::SIDE];
    let mut late = [0; Table::SIDE];
    let places = p.jobs + p.jobs;
    for k in 0..places {
        let job = job_at(p, k);
        let later = shift_at(p, k);
        let first_start = job.release + later;
        let first_finish = job.release + job.min + later;
        let last_start = job.deadline - job.max + later;
        let last_finish = job.deadline + later;
        let s = 1 + 2 * k;
        let f = 2 + 2 * k;
        early[s] = first_start;
        early[f] = first_finish;
        late[s] = last_start;
        late[f] = last_finish;
    }
    Spans { early, late }
}
