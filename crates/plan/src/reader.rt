// A plan's text, read.
ghost use Rattle.std.specs.Prelude.{◌≡◌};
ghost use Rattle.plan.specs.PlanLines.{plan_head, plan_alone};
ghost use Rattle.plan.specs.PlanAnswers.{plan_read};

use crate::bounds_lines::read_bounds;
use crate::first_lines::read_first;
use crate::jobs_lines::read_jobs;
use crate::number_line::read_number_line;
use crate::{BOUNDS_AT_MOST, Plan, PlanRead};
use lines::{FaultyLine, LONGEST_TEXT, Refusal};

// The plan at the head of a text, with the place and the number of the line after it; or the first refusal and where its faulty line begins.
pub fn read_head(s: &[u8]) -> Result<PlanRead, FaultyLine>
    ensures { result ≡ plan_read s.now (plan_head s.now) }
{
    let len = s.len();
    if LONGEST_TEXT < len {
        return Err(FaultyLine {
            refusal: Refusal::Form(0),
            at: len,
        });
    }
    let (first, at) = read_first(s)?;
    let jobs = first.jobs;
    let (job, at2) = read_jobs(s, at, jobs)?;
    let number = 5 + 4 * jobs;
    let (z, at3) = read_number_line(s, at2, number, b"bounds=", 0, BOUNDS_AT_MOST)?;
    let bounds = z as usize;
    let next = number + 1;
    let (bound, end) = read_bounds(s, at3, next, jobs, bounds)?;
    let plan = Plan {
        window: first.window,
        rounds: first.rounds,
        last: first.last,
        jobs,
        job,
        bounds,
        bound,
    };
    let after = next + bounds;
    Ok(PlanRead {
        plan,
        at: end,
        line: after,
    })
}

// A text that is a plan and nothing else: the plan, or the first refusal and where its faulty line begins.
pub fn read_plan(s: &[u8]) -> Result<PlanRead, FaultyLine>
    ensures { result ≡ plan_read s.now (plan_alone s.now) }
{
    let r = read_head(s)?;
    let at = r.at;
    if at < s.len() {
        return Err(FaultyLine {
            refusal: Refusal::Form(r.line),
            at,
        });
    }
    Ok(r)
}
