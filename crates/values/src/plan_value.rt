// A plan handed over as a value, judged as its text would be.
ghost use Rattle.std.specs.Prelude.{◌≡◌, Ok};
ghost use Rattle.plan.specs.Accepted.{Accepted};
ghost use Rattle.values.specs.PlanJudged.{judged_answer, judged_by_lines};
ghost use Rattle.plan.specs.PlanWritten.{judged_plan};

use crate::bound_values::judge_bounds;
use crate::job_values::{judge_jobs, judge_number};
use crate::{BOUNDS_AT_MOST, JOBS_AT_MOST};
use lines::Refusal;
use plan::Plan;

#[tactic(auto, unfolding(crate::specs::PlanJudged::judged_by_lines))]
// The lines that the plan's text would have: the first that is refused.
fn judge_lines(p: Plan) -> Result<(), Refusal>
    ensures { result ≡ judged_by_lines p }
{
    judge_number(p.window, 1, 86_400_000, 1)?;
    judge_number(p.rounds, 1, 1_000, 2)?;
    judge_number(p.last, 1, 1_000_000_000, 3)?;
    judge_number(p.jobs as u64, 1, JOBS_AT_MOST, 4)?;
    judge_jobs(&p.job[..p.jobs])?;
    judge_number(p.bounds as u64, 0, BOUNDS_AT_MOST, 5 + 4 * p.jobs)?;
    judge_bounds(p.jobs, &p.bound[..p.bounds])
}

// Whether the plan's text would be read, and then the plan is accepted; or the refusal of its first faulty line. The text is not written for it.
pub fn judge_plan(p: Plan) -> Result<(), Refusal>
    ensures value { result ≡ judged_answer (judged_plan p) }
    ensures accepted { result ≡ Ok tt → Accepted p }
{
    judge_lines(p)
}
