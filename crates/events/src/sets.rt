// Sets of events as bits: ones give the count, trailing zeros the next event.

ghost use Rattle.std.specs.Prelude.{◌≡◌, [], ◌<◌, ◌≤◌, ◌-◌};
ghost use Rattle.std.specs.Iterator.{YieldsFirst, item_count};
ghost use Rattle.events.specs.Bits.{
  bits_of,
  events_of,
  has_event,
  event_set,
  with_event,
  with_if,
  most_bits,
  HasRoom,
  with_first,
  event_count,
  is_below,
  next_event,
  members_from,
};

use crate::{Events, MOST_BITS, Members};

impl Events {
    // Stays: (a) no Default and no From: the public names, which docs/PROMISES.md has.
    // The set of no events.
    pub fn empty() -> Events
        ensures { result.0 ≡ event_set [] }
    {
        Events(0)
    }

    // The set that a number stands for: event e is in it where digit e is one. So a calendar that was stored is put together again.
    pub fn of_bits(bits: u64) -> Events
        ensures { result ≡ events_of bits }
    {
        Events(bits)
    }

    // The number that stands for the set.
    pub fn bits(self) -> u64
        ensures { result ≡ bits_of self }
    {
        let Events(all) = self;
        all
    }

    // Whether event e is in the set.
    pub fn has(self, e: usize) -> bool
        ensures { result ≡ has_event e self.0 }
    {
        e < MOST_BITS && (self.0 >> e) & 1 == 1
    }

    // The set and event e.
    pub fn with(self, e: usize) -> Events
        requires { e < most_bits }
        ensures { result.0 ≡ with_event e self.0 }
    {
        Events(self.0 | 1 << e)
    }

    // The set, and event e where that is on.
    pub fn with_if(self, e: usize, on: bool) -> Events
        requires { e < most_bits }
        ensures { result.0 ≡ with_if on e self.0 }
    {
        if on { self.with(e) } else { self }
    }

    // The set with each of its events one later, and event 0 where that is on: so a set is built from its last event down, which costs least.
    pub fn with_first(self, on: bool) -> Events
        requires { HasRoom self.0 }
        ensures { result.0 ≡ with_first on self.0 }
    {
        Events(2 * self.0 + u64::from(on))
    }

    // How many events are in the set.
    pub fn count(self) -> u32
        ensures { result ≡ event_count self.0 }
    {
        self.0.count_ones()
    }

    // Whether every event of the set is below count.
    pub fn is_below(self, count: usize) -> bool
        ensures { result ≡ is_below count self.0 }
    {
        count >= MOST_BITS || self.0 >> count == 0
    }

    // Stays: (a) a place past the set and no Option: document 01's form, trailing zeros, says it so.
    // The first event of the set from event e on; e + MOST_BITS, where there is none.
    pub fn next(self, e: usize) -> usize
        requires { e < most_bits }
        ensures { result ≡ next_event self.0 e }
    {
        e + (self.0 >> e).trailing_zeros() as usize
    }

    // The events of the set from the first one on, before count, in their order.
    pub fn members(self, first: usize, count: usize) -> Members
        requires { count ≤ most_bits }
        ensures { result ≡ members_from (bits_of self) first (count - first) }
    {
        Members {
            set: self,
            from: first,
            count,
        }
    }
}

impl Iterator for Members {
    type Item = usize;

    ghost next_gives = { YieldsFirst (λ m. m) };

    ghost remaining = { item_count (λ m. m) };

    fn next(&mut self) -> Option<usize> {
        if self.from >= self.count {
            return None;
        }
        let e = self.set.next(self.from);
        if e >= self.count {
            return None;
        }
        self.from = e + 1;
        Some(e)
    }
}
