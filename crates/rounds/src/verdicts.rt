// The rounds of a plan, to its verdict.
ghost use Rattle.std.specs.Prelude.{◌≡◌, cond, ◌+◌, ◌≤◌, length};
ghost use Rattle.plan.specs.Limits.{most_rounds};
ghost use Rattle.bounds.specs.Events.{nodes};
ghost use Rattle.bounds.specs.Flat.{rows_of, no_bounds, cells};
ghost use Rattle.bounds.specs.Held.{TimesHeld, TableHeldFor};
ghost use Rattle.rounds.specs.declared.Verdict.TheVariants.{NoStrategy};
ghost use Rattle.rounds.specs.Rounds.{fails_alone, verdict};
ghost use Rattle.rounds.specs.Settling.{SettledOn, Based};

use super::Verdict;
use super::joined::put_next;
use super::own::{put_between, put_own};
use super::same::same_rows;
use bounds::{Spans, Table};
use plan::Plan;

// 'one window alone, with C(m-1), gives a contradiction when it is eliminated'
// Never inlined: each of its calls would have a table of its own on the stack of every call of the entry.
#[inline(never)]
fn fails_alone(p: Plan, times: &Spans, carried: &Table) -> bool
    requires { TableHeldFor p times.now.early times.now.late (nodes p.jobs) carried.now.weights }
    ensures { result ≡ fails_alone p (rows_of (nodes p.jobs) carried.now.weights) }
{
    let mut alone = *carried;
    alone.drop_places(times, 0, p.jobs).is_err()
}

// 'First contradiction in round m: if one window alone, with C(m-1), gives a contradiction when it is eliminated, K = m, else K = m + 1.'
fn contradicted(p: Plan, times: &Spans, carried: &Table, m: u64) -> Verdict
    requires { (TableHeldFor p times.now.early times.now.late (nodes p.jobs) carried.now.weights) × (m ≤ most_rounds) }
    ensures { result ≡ NoStrategy (cond (fails_alone p (rows_of (nodes p.jobs) carried.now.weights)) m (m + 1)) }
{
    if fails_alone(p, times, carried) {
        return Verdict::NoStrategy(m);
    }
    let next = m + 1;
    Verdict::NoStrategy(next)
}

// The rounds from the first on: `carried` is C(0), and `joined` has the bounds between windows put into it. What is carried goes from round to round; the
// round that settles puts it on `joined`.
fn settle_rounds(p: Plan, times: &Spans, carried: &mut Table, joined: &mut Table) -> Verdict
    requires { (TimesHeld p times.now.early times.now.late) × (Based p times.now.early times.now.late carried.old.weights joined.old.weights)
        × (length joined.old.weights ≡ cells) }
    ensures value { result ≡ verdict p }
    ensures settled_on { SettledOn p (rows_of (nodes (p.jobs + p.jobs)) joined.new.weights) }
    ensures joined_len { length joined.new.weights ≡ cells }
{
    let jobs = p.jobs;
    let window = p.window;
    let rounds = p.rounds;
    let count = 1 + 2 * jobs;
    for m in 1..=rounds {
        let mut table = *joined;
        if put_next(&mut table, times, jobs, window, carried).is_err() {
            return contradicted(p, times, carried, m);
        }
        if table.drop_places(times, jobs, jobs).is_err() {
            return contradicted(p, times, carried, m);
        }
        if same_rows(carried, &table, count) {
            put_next(joined, times, jobs, window, carried).unwrap();
            return Verdict::Settled(m);
        }
        *carried = table;
    }
    Verdict::Unsettled(rounds)
}

// The verdict on a plan, worked out in a table without a bound; where it is settled, `joined` holds the joined table of the round that settled it, before its
// elimination, of which the calendar is made.
pub fn settle(p: Plan, times: &Spans, joined: &mut Table) -> Verdict
    requires { (TimesHeld p times.now.early times.now.late) × (joined.old.weights ≡ no_bounds) }
    ensures value { result ≡ verdict p }
    ensures settled_on { SettledOn p (rows_of (nodes (p.jobs + p.jobs)) joined.new.weights) }
    ensures joined_len { length joined.new.weights ≡ cells }
{
    if put_own(joined, times, p).is_err() {
        return Verdict::NoStrategy(1);
    }
    let mut carried = *joined;
    if put_between(joined, times, p).is_err() {
        return contradicted(p, times, &carried, 1);
    }
    settle_rounds(p, times, &mut carried, joined)
}
