// What an answer makes of a run.

ghost use Rattle.std.specs.Prelude.{◌≡◌};
ghost use Rattle.runs.specs.Steps.{new_run, closed};
ghost use Rattle.runs.specs.Steps as steps;
ghost use Rattle.runs.specs.Inside.{MoveInside};

use crate::seen::{put_job, put_to_front};
use crate::{Answer, Before, Phase, Run};
use clock::RunTime;
use events::MOST_EVENTS;

// A run at its beginning.
pub fn new_run() -> Run
    ensures { result ≡ new_run }
{
    Run {
        phase: Phase::Waiting { window: 1, job: 1 },
        before: Before::Nothing,
        seen: [0; MOST_EVENTS],
    }
}

// The job that runs has finished at t: the run moves on to the window's next job, or to the next window.
#[tactic(auto, unfolding(crate::specs::Steps::closed))]
fn close(run: &mut Run, jobs: usize, t: RunTime)
    requires { MoveInside jobs run.old.phase }
    ensures { run.new ≡ closed jobs run.old t run.old.phase }
{
    if let Phase::Running { window, job, start } = run.phase {
        put_job(&mut run.seen, jobs, job - 1, start, t);
        if job < jobs {
            run.phase = Phase::Waiting {
                window,
                job: job + 1,
            };
        } else {
            put_to_front(&mut run.seen, 2 * jobs);
            run.phase = Phase::Waiting {
                window: window + 1,
                job: 1,
            };
            run.before = Before::Window;
        }
    }
}

// What an answer makes of a run: only a start and a finish move it.
#[tactic(auto, unfolding(crate::specs::Steps::moved))]
pub fn move_run(run: &mut Run, jobs: usize, answer: Answer)
    requires { MoveInside jobs run.old.phase }
    ensures { run.new ≡ steps.moved jobs run.old answer }
{
    match answer {
        Answer::Offered(_) | Answer::Refused(_) => {}
        Answer::Started { window, job, start } => {
            run.phase = Phase::Running { window, job, start };
        }
        Answer::Final { finish, .. } => close(run, jobs, finish),
    }
}
