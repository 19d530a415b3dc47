// A bound line, `bound=A,B,c`: taken apart, and judged.
ghost use Rattle.std.specs.Prelude.{◌≡◌, ◌&&◌, ◌≤◌, length};
ghost use Rattle.text.specs.Bytes.{bytes};
ghost use Rattle.text.specs.Lines.{after_key};
ghost use Rattle.text.specs.Numbers.{within};
ghost use Rattle.plan.specs.Limits.{least_c, greatest_c};
ghost use Rattle.plan.specs.PlanLines.{is_job, bound_parts, judged_bound, bound_of};
ghost use Rattle.plan.specs.BoundNames.{name_to, names_in};
ghost use Rattle.plan.specs.Pairs.{is_wrong_numbered};

use crate::names::{event_name, is_job};
use crate::pairs::is_wrong_pair;
use crate::{Bound, EventName};
use lines::Fault;

// The range of a bound's c.
const LEAST_C: i64 = -1_000_000_000;

const GREATEST_C: i64 = 1_000_000_000;

// The name from a place up to the next comma, and the place after it.
fn name_to(line: &[u8], at: usize) -> Option<(EventName, usize)>
    requires { at ≤ length line.now }
    ensures { result ≡ name_to line.now at }
{
    let s = &line[at..];
    let i = text::len_to(s, b',');
    if s.len() <= i {
        return None;
    }
    let name = event_name(&s[..i])?;
    Some((name, at + i + 1))
}

// The two names of a bound line, and where its number begins.
fn bound_names(line: &[u8]) -> Option<(EventName, EventName, usize)>
    ensures { result ≡ names_in line.now }
{
    if !text::has_key(line, b"bound=") {
        return None;
    }
    let (a, second) = name_to(line, 6)?;
    let (b, number) = name_to(line, second)?;
    Some((a, b, number))
}

// Whether a number is in the range of a bound's c.
pub fn is_c(c: i64) -> bool
    ensures { result ≡ within least_c greatest_c c }
{
    (LEAST_C..=GREATEST_C).contains(&c)
}

// Whether the numbers of a bound are in their ranges: both jobs, and c.
fn has_range(d: Bound, jobs: usize) -> bool
    ensures { result ≡ (is_job jobs d.a.job && is_job jobs d.b.job && within least_c greatest_c d.c) }
{
    is_job(d.a.job, jobs) && is_job(d.b.job, jobs) && is_c(i64::from(d.c))
}

// A bound that has its form, after bounds whose pairs are given by their numbers: its numbers, and then its pair.
pub fn judge_bound(d: Bound, jobs: usize, given: &[u32]) -> Result<Bound, Fault>
    ensures { result ≡ judged_bound jobs (is_wrong_numbered given.now) d }
{
    if !has_range(d, jobs) {
        return Err(Fault::Range);
    }
    if is_wrong_pair(d.a, d.b, given) {
        return Err(Fault::Pair);
    }
    Ok(d)
}

// A bound line without its LF, after bounds whose pairs are given by their numbers.
pub fn read_bound(line: &[u8], jobs: usize, given: &[u32]) -> Result<Bound, Fault>
    ensures { result ≡ bound_of jobs (is_wrong_numbered given.now) (bound_parts (after_key (bytes "bound=") line.now)) }
{
    let Some((a, b, at)) = bound_names(line) else {
        return Err(Fault::Form);
    };
    let c = text::read_number(&line[at..], LEAST_C, GREATEST_C)?;
    judge_bound(Bound { a, b, c: c as i32 }, jobs, given)
}
