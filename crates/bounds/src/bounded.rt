// Which nodes a row has a bound to.
ghost use Rattle.std.specs.Prelude.{◌≡◌, ◌<◌};
ghost use Rattle.events.specs.Bits.{bits_of};
ghost use Rattle.bounds.specs.Flat.{bounded_nodes};
ghost use Rattle.bounds.specs.Events.{most_nodes};

use super::Table;
use events::Events;

impl Table {
    // The nodes z before s for which z - s has a bound.
    pub(crate) fn bounded_nodes(&self, s: usize) -> Events
        requires { s < most_nodes }
        ensures { bits_of result ≡ bounded_nodes self.now.weights s }
    {
        let row = s * Table::SIDE;
        let mut set = Events::empty();
        for z in (0..s).rev() {
            let v = self.weights[row + z];
            set = set.with_first(v != Table::NO_BOUND);
        }
        set
    }
}
