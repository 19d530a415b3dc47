// Wrong pairs of events: both n, the same event twice, or a pair given before.
ghost use Rattle.std.specs.Prelude.{◌≡◌};
ghost use Rattle.plan.specs.Pairs.{pair_number, is_wrong_numbered};

use crate::names::event_number;
use crate::{EventName, Letter};

// A number that no other ordered pair has.
pub fn pair_number(a: EventName, b: EventName) -> u32
    ensures { result ≡ pair_number a b }
{
    event_number(a) * 1024 + event_number(b)
}

// Whether A,B is a wrong pair after the pairs that are given by their numbers.
pub fn is_wrong_pair(a: EventName, b: EventName, given: &[u32]) -> bool
    ensures { result ≡ is_wrong_numbered given.now a b }
{
    if (a.letter, b.letter) == (Letter::Next, Letter::Next) {
        return true;
    }
    a == b || given.contains(&pair_number(a, b))
}
