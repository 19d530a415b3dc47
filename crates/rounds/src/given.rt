// A plan's given bounds: the events that they name, and how they are put into a table.
ghost use Rattle.std.specs.Prelude.{◌≡◌, ◌||◌, [], ◌∷◌, ◌+◌, ◌≤◌, ◌<◌, is_err};
ghost use Rattle.plan.specs.declared.Plan.{Plan};
ghost use Rattle.plan.specs.EventNames.{is_next};
ghost use Rattle.plan.specs.PlanWritten.{bounds_of};
ghost use Rattle.plan.specs.Accepted.{BoundAccepted};
ghost use Rattle.plan.specs.Limits.{most_jobs};
ghost use Rattle.bounds.specs.Events.{node_of, most_nodes};
ghost use Rattle.bounds.specs.Flat.{AllTimesInRange, flat, put_bounds};
ghost use Rattle.bounds.specs.Held.{TimesHeld};
ghost use Rattle.rounds.specs.Given.{place_of, named, meant, given_bounds};

use bounds::{Contradiction, Spans, Table};
use plan::{Bound, EventName, Kind, Letter, Plan};

// The place of job i of this window or of the next.
fn place_of(jobs: usize, letter: Letter, i: usize) -> usize
    requires { (1 ≤ i) × (i ≤ most_jobs) × (jobs ≤ most_jobs) }
    ensures value { (p : Plan) → jobs ≡ p.jobs → result ≡ place_of p letter i }
    ensures upper_bound { result < most_jobs + most_jobs }
{
    match letter {
        Letter::This => i - 1,
        Letter::Next => jobs + (i - 1),
    }
}

// The node of the event that a name means, with so many jobs.
fn node_of(jobs: usize, e: EventName) -> usize
    requires { (1 ≤ e.job) × (e.job ≤ most_jobs) × (jobs ≤ most_jobs) }
    ensures value { (p : Plan) → jobs ≡ p.jobs → result ≡ node_of (named p e) }
    ensures upper_bound { result < most_nodes }
{
    let i = e.job as usize;
    let k = place_of(jobs, e.letter, i);
    match e.kind {
        Kind::Start => 1 + 2 * k,
        Kind::Finish => 2 + 2 * k,
    }
}

// '`bound=A,B,c` means A - B <= c', put into a table.
fn put_bound(table: &mut Table, times: &Spans, jobs: usize, d: Bound) -> Result<(), Contradiction>
    requires { (AllTimesInRange times.now.early times.now.late) × (jobs ≤ most_jobs) × (BoundAccepted jobs d) }
    ensures { (p : Plan) → jobs ≡ p.jobs → flat (is_err result) table.new.weights
        ≡ put_bounds times.now.early times.now.late (meant p d ∷ []) table.old.weights }
{
    let y = node_of(jobs, d.b);
    let z = node_of(jobs, d.a);
    table.put(times, y, z, d.c, 0)
}

// Whether one of two letters is n.
fn one_next(a: Letter, b: Letter) -> bool
    ensures { result ≡ (is_next a || is_next b) }
{
    a == Letter::Next || b == Letter::Next
}

// A given bound, where it is one of those that are put: those with an n event, or those with two t events.
fn put_due(
    table: &mut Table,
    times: &Spans,
    jobs: usize,
    d: Bound,
    between: bool,
) -> Result<(), Contradiction>
    requires { (AllTimesInRange times.now.early times.now.late) × (jobs ≤ most_jobs) × (BoundAccepted jobs d) }
    ensures { (p : Plan) → jobs ≡ p.jobs → flat (is_err result) table.new.weights
        ≡ put_bounds times.now.early times.now.late (given_bounds p between (d ∷ [])) table.old.weights }
{
    if one_next(d.a.letter, d.b.letter) != between {
        return Ok(());
    }
    put_bound(table, times, jobs, d)
}

// 'all given bounds with an n event', or 'all given bounds with two t events'.
// Stays: (d) `between` is the flag of `given_bounds`; a closure that chooses would say the same of each bound, and its calls would name both letters again.
pub fn put_given(
    table: &mut Table,
    times: &Spans,
    p: Plan,
    between: bool,
) -> Result<(), Contradiction>
    requires { TimesHeld p times.now.early times.now.late }
    ensures { flat (is_err result) table.new.weights ≡ put_bounds times.now.early times.now.late (given_bounds p between (bounds_of p))
        table.old.weights }
{
    for d in &p.bound[..p.bounds] {
        put_due(table, times, p.jobs, *d, between)?;
    }
    Ok(())
}
