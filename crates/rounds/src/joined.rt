// C(m-1) put on the next window. 'Where a set is put on the next window, its bounds to and from the origin move by `window` too.'
ghost use Rattle.std.specs.Prelude.{◌≡◌, ◌+◌, ◌*◌, ◌≤◌, ◌<◌, is_err};
ghost use Rattle.plan.specs.Limits.{most_jobs};
ghost use Rattle.bounds.specs.Flat.{flat};
ghost use Rattle.bounds.specs.Events.{most_nodes};
ghost use Rattle.rounds.specs.Next.{Nexts, onto, next_at, next_row, next_rows};
ghost use Rattle.rounds.specs.Rounds.{shift_by};

use bounds::{Contradiction, Spans, Table};

// The node on the next window of node y of one window; the origin stays.
fn node_onto(jobs: usize, y: usize) -> usize
    requires { (jobs ≤ most_jobs) × (y < most_nodes) }
    ensures { result ≡ onto jobs y }
{
    if y == 0 { 0 } else { y + 2 * jobs }
}

// By how much the event of node y moves; the origin stays.
fn shift_by(window: i32, y: usize) -> i32
    ensures { result ≡ shift_by window y }
{
    if y == 0 { 0 } else { window }
}

// The bound of (y, z), put on the next window.
fn put_next_cell(
    table: &mut Table,
    times: &Spans,
    jobs: usize,
    window: i32,
    carried: &Table,
    y: usize,
    z: usize,
) -> Result<(), Contradiction>
    requires { (Nexts times.now.early times.now.late jobs window carried.now.weights) × (y < 1 + 2 * jobs) × (z < 1 + 2 * jobs) }
    ensures { flat (is_err result) table.new.weights ≡ next_at times.now.early times.now.late jobs window carried.now.weights y z
        table.old.weights }
{
    let v = carried.weights[y * Table::SIDE + z];
    let from = node_onto(jobs, y);
    let to = node_onto(jobs, z);
    let more = shift_by(window, z);
    let less = shift_by(window, y);
    let a = more - less;
    table.put(times, from, to, v, a)
}

// The bounds of row y.
fn put_next_row(
    table: &mut Table,
    times: &Spans,
    jobs: usize,
    window: i32,
    carried: &Table,
    y: usize,
) -> Result<(), Contradiction>
    requires { (Nexts times.now.early times.now.late jobs window carried.now.weights) × (y < 1 + 2 * jobs) }
    ensures { flat (is_err result) table.new.weights ≡ next_row times.now.early times.now.late jobs window carried.now.weights y table.old.weights }
{
    let count = 1 + 2 * jobs;
    for z in 0..count {
        put_next_cell(table, times, jobs, window, carried, y, z)?;
    }
    Ok(())
}

// All bounds of a carried set.
pub fn put_next(
    table: &mut Table,
    times: &Spans,
    jobs: usize,
    window: i32,
    carried: &Table,
) -> Result<(), Contradiction>
    requires { Nexts times.now.early times.now.late jobs window carried.now.weights }
    ensures { flat (is_err result) table.new.weights ≡ next_rows times.now.early times.now.late jobs window carried.now.weights table.old.weights }
{
    let count = 1 + 2 * jobs;
    for y in 0..count {
        put_next_row(table, times, jobs, window, carried, y)?;
    }
    Ok(())
}
