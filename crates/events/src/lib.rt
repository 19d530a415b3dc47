// Sets of events.
#![tactic(auto)]

mod sets;

ghost use Rattle.std.specs.Prelude.{ℕ, ◌-◌, ◌≤◌, List};
ghost use Rattle.events.specs.Bits.{bits_of, most_bits, members_from};

use std::marker::Model;

// As many events as two windows have at most: a start and a finish for each job.
pub const MOST_EVENTS: usize = 4 * plan::MOST_JOBS;

// A set of events, by their numbers; or of a table's nodes, which are the origin and the events. Only this crate knows what holds it.
#[derive(Clone, Copy)]
pub struct Events(u64);

// The events of a set from one on, before count, as an iterator gives them: those that it has still to give.
#[derive(Drop)]
pub struct Members {
    set: Events,
    from: usize,
    count: usize,
}

impl Model for Members {
    ghost Value = { List ℕ };

    ghost view = { λ m. members_from (bits_of m.set) m.from (m.count - m.from) };

    ghost invariant = { λ m. m.count ≤ most_bits };
}

// As many events as a u64 has bits.
const MOST_BITS: usize = 64;
