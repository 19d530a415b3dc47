// The table without a bound.
ghost use Rattle.std.specs.Prelude.{◌≡◌};
ghost use Rattle.bounds.specs.Flat.{no_bounds};

use super::Table;

impl Table {
    // The table without a bound.
    pub fn empty() -> Table
        ensures { result.weights ≡ no_bounds }
    {
        Table {
            weights: [Table::NO_BOUND; Table::SIZE],
        }
    }
}
