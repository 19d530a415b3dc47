// Ask, start and finish, on a run with its plan and its calendar.

ghost use Rattle.plan.specs.PlanLines.{no_job};
ghost use Rattle.std.specs.Prelude.{get_or, ◌≡◌, ◌≤◌};
ghost use Rattle.plan.specs.Accepted.{Accepted};
ghost use Rattle.runs.specs.ValueLimits.{job_of_phase};
ghost use Rattle.runs.specs.Offers.{turn_of};
ghost use Rattle.runs.specs.Steps as steps;
ghost use Rattle.runs.specs.Inside.{Inside, FinishInside, StepInside, accepted_step, refused_with};

use crate::limits::{is_calendar, is_run, is_step, is_time, jobs_done};
use crate::moves::move_run;
use crate::offers::opening;
use crate::{Answer, Answered, Choice, Offer, Opening, Phase, Run, Step};
use calendars::Calendar;
use clock::RunTime;
use lines::Refusal;
use plan::{Job, Plan};

// An ask's answer: the offer.
#[tactic(auto, unfolding(crate::specs::Steps::asked))]
fn asked(at: Result<Opening, Refusal>) -> Answer
    ensures { result ≡ steps.asked at }
{
    match at {
        Ok(o) => Answer::Offered(o.offer),
        Err(x) => Answer::Refused(x),
    }
}

// A start at a given time, 8 outside the offer; or at the offer's lower end, 2,0 outside the range of a time.
fn started_by(window: u64, job: usize, o: Offer, choice: Choice) -> Answer
    ensures { result ≡ steps.started_by window job o choice }
{
    match choice {
        Choice::At(start) => {
            if clock::is_between(o.from, o.to, start) {
                return Answer::Started { window, job, start };
            }
            Answer::Refused(Refusal::OutsideOffer)
        }
        Choice::Auto => {
            let start = o.from;
            if is_time(start) {
                return Answer::Started { window, job, start };
            }
            Answer::Refused(Refusal::Range(0))
        }
    }
}

// A start's answer.
#[tactic(auto, unfolding(crate::specs::Steps::started))]
fn started(choice: Choice, at: Result<Opening, Refusal>) -> Answer
    ensures { result ≡ steps.started choice at }
{
    match at {
        Ok(o) => started_by(o.window, o.job, o.offer, choice),
        Err(x) => Answer::Refused(x),
    }
}

// The answer to a finish of a job of some window, which runs since a start: 9 before start + min or after start + max.
fn finished_since(limits: Job, window: u64, job: usize, start: RunTime, finish: RunTime) -> Answer
    requires { FinishInside limits start }
    ensures { result ≡ steps.finished_since limits window job start finish }
{
    if clock::is_between(start + limits.min, start + limits.max, finish) {
        return Answer::Final {
            window,
            job,
            finish,
        };
    }
    Answer::Refused(Refusal::OutsideTimes)
}

// The limits of the job at a place; of a place that no job has, zeros.
fn limits_at(p: &Plan, i: usize) -> Job
    ensures { result ≡ get_or p.now.job i no_job }
{
    match p.job.get(i) {
        Some(limits) => *limits,
        None => Job {
            min: 0,
            max: 0,
            release: 0,
            deadline: 0,
        },
    }
}

// A step's answer.
#[tactic(auto, unfolding(crate::specs::Steps::answer_at, crate::specs::Steps::finished))]
pub fn answer_step(p: &Plan, c: &Calendar, run: &Run, st: Step) -> Answer
    requires { StepInside (turn_of p.now c.now (job_of_phase run.now.phase)) c.now.at_least c.now.at_most run.now }
    ensures { result ≡ steps.answer_of p.now c.now run.now st }
{
    match st {
        Step::Ask => asked(opening(p, c, run)),
        Step::Start(choice) => started(choice, opening(p, c, run)),
        Step::Finish(t) => match run.phase {
            Phase::Waiting { .. } => Answer::Refused(Refusal::Idle),
            Phase::Running { window, job, start } => {
                let limits = limits_at(p, jobs_done(run.phase));
                finished_since(limits, window, job, start, t)
            }
        },
    }
}

// A step, with a plan, a calendar and a run inside their limits.
fn step_inside(p: &Plan, c: &Calendar, mut run: Run, st: Step) -> Answered
    requires { Inside p.now c.now run }
    ensures { result ≡ steps.stepped p.now c.now run st }
{
    let answer = answer_step(p, c, &run, st);
    move_run(&mut run, p.jobs, answer);
    Answered { answer, run }
}

// A refusal, with the run as it came in.
pub fn refused_with(run: Run, x: Refusal) -> Answered
    ensures { result ≡ refused_with run x }
{
    Answered {
        answer: Answer::Refused(x),
        run,
    }
}

// A step, with a plan that is accepted: 2,0 for a run, a calendar or a time outside its limits.
#[tactic(auto, unfolding(crate::specs::Steps::values_refused, crate::specs::Steps::unless_refused, crate::specs::Steps::moved))]
pub fn step_accepted(p: &Plan, c: &Calendar, run: Run, st: Step) -> Answered
    requires { Accepted p.now }
    ensures { result ≡ accepted_step p.now c.now run st }
{
    if !is_run(p, &run) || !is_calendar(p, c) || !is_step(st) {
        return refused_with(run, Refusal::Range(0));
    }
    step_inside(p, c, run, st)
}
