//! A trail holds the newest n of the entries that were put, over n entries of the caller's memory (the field's word: ring buffer).
#![tactic(auto)]

ghost use Rattle.std.specs.Prelude.{◌-◌, ◌≤◌, length};
ghost use Rattle.trails.specs.Held.{most_puts};

mod put;
mod tell;

/// The newest entries that were put. The slot before `next` has the newest, and `used` slots, going backward and round, hold entries.
// The slots are lent, since nothing is allocated; an `impl Model` would hide them, and the clauses say what they hold and whose they are.
#[derive(Drop)]
pub struct Trail<'a, T: Copy> {
    slots: &'a mut [T],
    next: usize,
    used: usize,
    count: u32,
    ghost next_within: { next ≤ length slots.now - 1 },
    ghost used_within: { used ≤ length slots.now },
    ghost counted: { count ≤ most_puts },
}
