// The first four lines of a plan.
ghost use Rattle.plan.specs.PlanLines.{plan_lines};
ghost use Rattle.plan.specs.ReadAt.{FirstTold};

use crate::number_line::read_number_line;
use crate::{First, JOBS_AT_MOST};
use lines::FaultyLine;

// The window, the rounds, the windows of a run and the jobs, and where the next line begins.
pub fn read_first(s: &[u8]) -> Result<(First, usize), FaultyLine>
    ensures { FirstTold s.now (plan_lines s.now 1) result }
{
    let (window, at2) = read_number_line(s, 0, 1, b"window=", 1, 86_400_000)?;
    let (rounds, at3) = read_number_line(s, at2, 2, b"rounds=", 1, 1_000)?;
    let (last, at4) = read_number_line(s, at3, 3, b"last=", 1, 1_000_000_000)?;
    let (jobs, at5) = read_number_line(s, at4, 4, b"jobs=", 1, JOBS_AT_MOST)?;
    let first = First {
        window,
        rounds: rounds as u64,
        last: last as u64,
        jobs: jobs as usize,
    };
    Ok((first, at5))
}
