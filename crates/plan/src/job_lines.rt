// The four lines of a job.
ghost use Rattle.std.specs.Prelude.{◌≡◌, ◌+◌, ◌≤◌, length, drop};
ghost use Rattle.plan.specs.Limits.{most_lines};
ghost use Rattle.plan.specs.PlanLines.{job_lines};
ghost use Rattle.lines.specs.ReadAt.{at_told, at_place};

use crate::Job;
use crate::number_line::read_number_line;
use lines::FaultyLine;

// The job whose lines begin at a place, and where the line after them begins.
pub fn read_job(s: &[u8], at: usize, line: usize) -> Result<(Job, usize), FaultyLine>
    requires within { at ≤ length s.now }
    requires few_lines { line ≤ most_lines }
    ensures line_value { job_lines (drop at s.now) line ≡ at_told s.now (line + 4) result }
    ensures result_in_bounds { at_place result ≤ length s.now }
{
    let (min, at2) = read_number_line(s, at, line, b"min=", 0, 86_400_000)?;
    let (max, at3) = read_number_line(s, at2, line + 1, b"max=", min, 86_400_000)?;
    let (release, at4) = read_number_line(s, at3, line + 2, b"release=", 0, 172_800_000)?;
    let (deadline, next) = read_number_line(s, at4, line + 3, b"deadline=", 0, 172_800_000)?;
    let job = Job {
        min,
        max,
        release,
        deadline,
    };
    Ok((job, next))
}
