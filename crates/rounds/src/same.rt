// 'C(m) = C(m-1)': whether two tables hold the same bounds.
ghost use Rattle.std.specs.Prelude.{◌≡◌, ◌≤◌, ◌<◌};
ghost use Rattle.bounds.specs.Tables.{listed};
ghost use Rattle.bounds.specs.Flat.{cell_at, rows_of};
ghost use Rattle.bounds.specs.Events.{most_nodes};
ghost use Rattle.rounds.specs.Rounds.{same_row, same_rows};

use bounds::Table;

// Whether row y of the first k nodes is the same.
fn same_row(first: &Table, second: &Table, k: usize, y: usize) -> bool
    requires { (k ≤ most_nodes) × (y < most_nodes) }
    ensures { result ≡ same_row (listed k (cell_at first.now.weights y)) (listed k (cell_at second.now.weights y)) }
{
    let row = y * Table::SIDE;
    let end = row + k;
    first.weights[row..end] == second.weights[row..end]
}

// Whether the tables of the first k nodes are the same.
pub fn same_rows(first: &Table, second: &Table, k: usize) -> bool
    requires { k ≤ most_nodes }
    ensures { result ≡ same_rows (rows_of k first.now.weights) (rows_of k second.now.weights) }
{
    (0..k).all(|y| same_row(first, second, k, y))
}
