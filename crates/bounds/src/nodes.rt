// Events and their nodes: the origin is node 0, and a start and a finish for each place follow, in the order of time.
ghost use Rattle.std.specs.Prelude.{◌≡◌};
ghost use Rattle.bounds.specs.Events.{event_of};

use super::Event;

impl Event {
    // The event of a node.
    pub fn of(node: usize) -> Event
        ensures { result ≡ event_of node }
    {
        if node == 0 {
            return Event::Origin;
        }
        let m = node - 1;
        if m % 2 == 0 {
            return Event::Start(m / 2);
        }
        Event::Finish(m / 2)
    }
}
