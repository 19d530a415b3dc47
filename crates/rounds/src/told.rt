// A verdict as answers state it.
ghost use Rattle.std.specs.Prelude.{◌≡◌};
ghost use Rattle.rounds.specs.Rounds.{verdict_told};

use super::Verdict;
use lines::Refusal;

// A verdict as answers state it: settled in a round, or a refusal, which is 4 where there is no strategy, and 5 where it is unsettled.
pub fn tell_verdict(v: Verdict) -> Result<u64, Refusal>
    ensures { result ≡ verdict_told v }
{
    match v {
        Verdict::Settled(m) => Ok(m),
        Verdict::NoStrategy(windows) => Err(Refusal::NoStrategy(windows)),
        Verdict::Unsettled(rounds) => Err(Refusal::Unsettled(rounds)),
    }
}
