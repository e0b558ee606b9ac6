//! Making a trail, and putting onto it.
ghost use Rattle.std.specs.Prelude.{◌≡◌};
ghost use Rattle.trails.specs.Held.{none_put, put_onto, HoldsNewest};
ghost use Rattle.trails.specs.Meaning.{held};

use crate::Trail;

/// How many puts are counted at most.
const MOST_PUTS: u32 = 4_000_000_000;

#[tactic(auto, unfolding(crate::specs::Meaning::held, crate::specs::Held::none_put, crate::specs::Held::put_onto))]
impl<'a, T: Copy> Trail<'a, T> {
    /// A trail over `slots`, of which nothing was put yet.
    pub fn new(slots: &'a mut [T]) -> Self
        ensures held { held result ≡ none_put slots.old }
        ensures slots { result.slots.now ≡ (held result).memory }
        ensures newest { HoldsNewest (held result) }
        ensures name { result.slots.ghost_name ≡ slots.entry.ghost_name }
    {
        Trail {
            slots,
            next: 0,
            used: 0,
            count: 0,
        }
    }

    /// Puts an entry, which is then the newest. The oldest goes where there is no room.
    pub fn put(&mut self, x: T)
        ensures held { held self.new ≡ put_onto (held self.old) x }
        ensures slots { self.new.slots.now ≡ (held self.new).memory }
        ensures name { self.new.slots.ghost_name ≡ self.old.slots.ghost_name }
    {
        self.count = (self.count + 1).min(MOST_PUTS);
        let n = self.slots.len();
        if self.next >= n {
            return;
        }
        // By index, since after a write through `get_mut` it is not known what the slots hold.
        self.slots[self.next] = x;
        self.next = (self.next + 1) % n;
        self.used = self.used.saturating_add(1).min(n);
    }
}
