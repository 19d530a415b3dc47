// The bounds of a plan's value, judged as their lines would be.
ghost use Rattle.std.specs.Prelude.{◌≡◌, ◌&&◌, [], ◌+◌, ◌*◌, ◌≤◌, length, take};
ghost use Rattle.plan.specs.Limits.{most_bounds, most_jobs};
ghost use Rattle.plan.specs.Pairs.{is_wrong_numbered};
ghost use Rattle.values.specs.PlanJudged.{is_one_digit, bound_judged, bounds_judged};

use lines::Refusal;
use plan::{Bound, MOST_BOUNDS, judge_bound, pair_number};

// Whether the job numbers of a bound are one digit each, as its line's form asks.
fn has_form(d: Bound) -> bool
    ensures { result ≡ (is_one_digit d.a.job && is_one_digit d.b.job) }
{
    d.a.job < 10 && d.b.job < 10
}

#[tactic(auto, unfolding(crate::specs::PlanJudged::bound_judged))]
// A bound after others whose pairs are given by their numbers: its form, its numbers, and then its pair.
fn judge_line(d: Bound, jobs: usize, given: &[u32], line: usize) -> Result<(), Refusal>
    ensures { result ≡ bound_judged jobs (is_wrong_numbered given.now) line d }
{
    if !has_form(d) {
        return Err(Refusal::Form(line));
    }
    match judge_bound(d, jobs, given) {
        Ok(_) => Ok(()),
        Err(f) => Err(f.at(line)),
    }
}

#[tactic(auto, using(crate::specs::JudgedWays::bounds_loop))]
// The bounds of a plan with so many jobs, whose lines would follow the count of the bounds: the first that is refused. The pairs given are kept as numbers.
pub fn judge_bounds(jobs: usize, bounds: &[Bound]) -> Result<(), Refusal>
    requires { (jobs ≤ most_jobs) × (length bounds.now ≤ most_bounds) }
    ensures { result ≡ bounds_judged jobs [] (6 + 4 * jobs) bounds.now }
{
    let mut given = [0u32; MOST_BOUNDS];
    for (i, d) in bounds.iter().enumerate() {
        judge_line(*d, jobs, &given[..i], 6 + 4 * jobs + i)?;
        given[i] = pair_number(d.a, d.b);
    }
    Ok(())
}
