// 'Every bound, given or made, is judged'.
ghost use Rattle.std.specs.Prelude.{◌≡◌};
ghost use Rattle.bounds.specs.Judgements.{at_least, from_origin, apart};
ghost use Rattle.bounds.specs.Spans.{judged_by};

use super::{Event, Judgement};

// A contradiction below a limit, else left out.
fn at_least(limit: i32, w: i32) -> Judgement
    ensures { result ≡ at_least limit w }
{
    if w < limit {
        Judgement::Contradiction
    } else {
        Judgement::LeftOut
    }
}

// A contradiction below a limit, else kept: a bound on the origin is never left out.
fn from_origin(low: i32, w: i32) -> Judgement
    ensures { result ≡ from_origin low w }
{
    if w < low {
        Judgement::Contradiction
    } else {
        Judgement::Kept
    }
}

// A contradiction below one limit, left out from the other on, else kept.
fn apart(low: i32, high: i32, w: i32) -> Judgement
    ensures { result ≡ apart low high w }
{
    if w < low {
        Judgement::Contradiction
    } else if high <= w {
        Judgement::LeftOut
    } else {
        Judgement::Kept
    }
}

// The judgement of z - y <= w, by what y and z are and by four differences of their times: low is earliest(z) - latest(y), high is
// latest(z) - earliest(y), late is latest(z) - latest(y), early is earliest(z) - earliest(y). From a job's start to its finish late is
// max, and from its finish to its start early is -min.
pub fn judge(y: Event, z: Event, low: i32, high: i32, late: i32, early: i32, w: i32) -> Judgement
    ensures { result ≡ judged_by low high late early y z w }
{
    if y == z {
        return at_least(0, w);
    }
    match (y, z) {
        (Event::Start(j), Event::Finish(k)) if j == k => at_least(late, w),
        (Event::Finish(j), Event::Start(k)) if j == k => at_least(early, w),
        (Event::Origin, _) => from_origin(low, w),
        (_, Event::Origin) => from_origin(low, w),
        _ => apart(low, high, w),
    }
}
