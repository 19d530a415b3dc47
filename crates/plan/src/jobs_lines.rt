// The lines of all jobs.
ghost use Rattle.std.specs.Prelude.{◌≡◌, [], ◌≤◌, length, drop};
ghost use Rattle.plan.specs.Limits.{most_jobs};
ghost use Rattle.plan.specs.PlanLines.{jobs_after};
ghost use Rattle.plan.specs.ReadAt.{jobs_told, JobsFilled};
ghost use Rattle.lines.specs.ReadAt.{at_place};

use crate::job_lines::read_job;
use crate::{Job, MOST_JOBS};
use lines::FaultyLine;

// So many jobs, whose lines begin at a place with line 5, and where the line after them begins.
pub fn read_jobs(
    s: &[u8],
    from: usize,
    jobs: usize,
) -> Result<([Job; MOST_JOBS], usize), FaultyLine>
    requires within { from ≤ length s.now }
    requires few_jobs { jobs ≤ most_jobs }
    ensures s_value { jobs_after [] jobs (drop from s.now) 5 ≡ jobs_told s.now jobs result }
    ensures result_in_bounds { at_place result ≤ length s.now }
    ensures jobs_filled { JobsFilled jobs result }
{
    let mut job = [Job::NONE; MOST_JOBS];
    let mut at = from;
    let mut line = 5;
    for i in 0..jobs {
        let (next_job, next) = read_job(s, at, line)?;
        job[i] = next_job;
        at = next;
        line += 4;
    }
    Ok((job, at))
}
