// The operations of a run: ask, start and finish on a plan, a calendar and a run as values.

ghost use Rattle.std.specs.Prelude.{◌≡◌};
ghost use Rattle.runs.specs.Steps as steps;
ghost use Rattle.runs.specs.declared.Choice.TheVariants.{At, Auto};
ghost use Rattle.runs.specs.declared.Step.TheVariants.{Ask, Start, Finish};

use crate::steps::{refused_with, step_accepted};
use crate::{Answered, Choice, Run, Step};
use calendars::Calendar;
use clock::RunTime;
use plan::Plan;

// A step's answer. The plan is judged first, as its text would be; then 2,0 for a run, a calendar or a time outside its limits.
#[tactic(auto, unfolding(crate::specs::Steps::values_answer, crate::specs::Steps::values_refused, crate::specs::Steps::unless_refused, crate::specs::Steps::moved))]
pub fn take_step(p: Plan, c: Calendar, run: Run, st: Step) -> Answered
    ensures { result ≡ steps.step p c run st }
{
    match values::judge_plan(p) {
        Ok(()) => step_accepted(&p, &c, run, st),
        Err(x) => refused_with(run, x),
    }
}

// The answer to an ask: the offer.
pub fn ask(p: Plan, c: Calendar, run: Run) -> Answered
    ensures { result ≡ steps.step p c run Ask }
{
    take_step(p, c, run, Step::Ask)
}

// The answer to a start at t.
pub fn start_at(p: Plan, c: Calendar, run: Run, t: RunTime) -> Answered
    ensures { result ≡ steps.step p c run (Start (At t)) }
{
    take_step(p, c, run, Step::Start(Choice::At(t)))
}

// The answer to a start at the offer's lower end.
pub fn start_auto(p: Plan, c: Calendar, run: Run) -> Answered
    ensures { result ≡ steps.step p c run (Start Auto) }
{
    take_step(p, c, run, Step::Start(Choice::Auto))
}

// The answer to a finish at t.
pub fn finish_at(p: Plan, c: Calendar, run: Run, t: RunTime) -> Answered
    ensures { result ≡ steps.step p c run (Finish t) }
{
    take_step(p, c, run, Step::Finish(t))
}
