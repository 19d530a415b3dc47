// The numbers and the jobs of a plan's value, judged as their lines would be.
ghost use Rattle.std.specs.Prelude.{◌≡◌, ◌≤◌, ℤ, pos, length, Some, refl};
ghost use Rattle.std.specs.Ordering.{int_cmp};
ghost use Rattle.plan.specs.Limits.{most_jobs, most_lines};
ghost use Rattle.values.specs.PlanJudged.{number_judged, job_judged, jobs_judged};
ghost use Rattle.std.proofs.Common.{rules};

use lines::Refusal;
use plan::Job;

// A number of a line: a time, or a count.
pub trait Number: PartialOrd + Copy {
    // The whole number that it is, and the order of its type is theirs.
    ghost value: { Self → ℤ };

    ghost same_order: { (x y : Self) → Self.partial_cmp x y ≡ Some (int_cmp (value x) (value y)) };
}

impl Number for i32 {
    ghost value = { λ z. z };

    ghost same_order = { λ x y. Prim.search rules };
}

impl Number for u64 {
    ghost value = { pos };

    ghost same_order = { λ x y. Prim.search rules };
}

// Whether a number is in its range, or the refusal of its line.
pub fn judge_number<T: Number>(z: T, lo: T, hi: T, line: usize) -> Result<(), Refusal>
    ensures { result ≡ number_judged (T.value lo) (T.value hi) (T.value z) line }
{
    if z < lo || hi < z {
        return Err(Refusal::Range(line));
    }
    Ok(())
}

#[tactic(auto, unfolding(crate::specs::PlanJudged::job_judged))]
// A job whose first line would have a number: the first of its four lines that is out of range.
fn judge_job(j: Job, line: usize) -> Result<(), Refusal>
    requires { line ≤ most_lines }
    ensures { result ≡ job_judged line j }
{
    judge_number(j.min, 0, 86_400_000, line)?;
    judge_number(j.max, j.min, 86_400_000, line + 1)?;
    judge_number(j.release, 0, 172_800_000, line + 2)?;
    judge_number(j.deadline, 0, 172_800_000, line + 3)
}

#[tactic(auto, using(crate::specs::JudgedWays::jobs_loop))]
// The jobs of a plan, whose lines would begin with line 5: the first that is refused.
pub fn judge_jobs(jobs: &[Job]) -> Result<(), Refusal>
    requires { length jobs.now ≤ most_jobs }
    ensures { result ≡ jobs_judged 5 jobs.now }
{
    for (i, j) in jobs.iter().enumerate() {
        judge_job(*j, 5 + 4 * i)?;
    }
    Ok(())
}
