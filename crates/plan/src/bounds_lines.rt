// The lines of all bounds.
ghost use Rattle.std.specs.Prelude.{◌≡◌, [], ◌≤◌, length, drop};
ghost use Rattle.plan.specs.Limits.{most_jobs, most_bounds, most_lines};
ghost use Rattle.plan.specs.PlanLines.{bounds_after};
ghost use Rattle.plan.specs.ReadAt.{bounds_told, BoundsFilled};
ghost use Rattle.lines.specs.ReadAt.{at_place};

use crate::bound_line::read_bound;
use crate::line_at::read_line;
use crate::pairs::pair_number;
use crate::{Bound, MOST_BOUNDS};
use lines::FaultyLine;

// Stays: (d) a loop with its index: a bound is judged by the numbers of those before it, `given[..i]`, and stored beside its own.
// So many bounds, whose lines begin at a place with a line of a number. The pairs given are kept as numbers beside the bounds.
pub fn read_bounds(
    s: &[u8],
    from: usize,
    number: usize,
    jobs: usize,
    bounds: usize,
) -> Result<([Bound; MOST_BOUNDS], usize), FaultyLine>
    requires within { from ≤ length s.now }
    requires few_lines { number ≤ most_lines }
    requires few_jobs { jobs ≤ most_jobs }
    requires few_bounds { bounds ≤ most_bounds }
    ensures number_value { bounds_after jobs [] bounds (drop from s.now) number ≡ bounds_told s.now number bounds result }
    ensures result_in_bounds { at_place result ≤ length s.now }
    ensures bounds_filled { BoundsFilled bounds result }
{
    let mut bound = [Bound::NONE; MOST_BOUNDS];
    let mut given = [0u32; MOST_BOUNDS];
    let mut at = from;
    let mut line = number;
    for i in 0..bounds {
        let before = &given[..i];
        let (d, next) = read_line(s, at, line, |l| read_bound(l, jobs, before))?;
        given[i] = pair_number(d.a, d.b);
        bound[i] = d;
        at = next;
        line += 1;
    }
    Ok((bound, at))
}
