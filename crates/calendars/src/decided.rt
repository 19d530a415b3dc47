// What is decided of a plan: its round and its calendar, or the refusal of its verdict.
ghost use Rattle.std.specs.Prelude.{◌≡◌};
ghost use Rattle.plan.specs.Accepted.{Accepted};
ghost use Rattle.rounds.specs.Rounds.{outcome};
ghost use Rattle.calendars.specs.Calendars.{decision};

use crate::Decision;
use crate::walk::calendar_of;
use bounds::Table;
use lines::Refusal;
use plan::Plan;
use rounds::{settle, tell_verdict};

// The round in which an accepted plan settles, and its calendar; 4 or 5 where it does not settle.
pub fn decide(p: Plan) -> Result<Decision, Refusal>
    requires { Accepted p }
    ensures { result ≡ decision p (outcome p) }
{
    let times = bounds::times_of(p);
    let mut joined = Table::empty();
    let verdict = settle(p, &times, &mut joined);
    let round = tell_verdict(verdict)?;
    let calendar = calendar_of(p, &joined, &times);
    Ok(Decision { round, calendar })
}
