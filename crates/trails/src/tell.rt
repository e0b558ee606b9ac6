//! What a trail tells.
ghost use Rattle.std.specs.Prelude.{◌≡◌, ◌+◌, ◌<◌, ◌≤◌, ◌⊎◌, length};
ghost use Rattle.trails.specs.Held.{aged};
ghost use Rattle.trails.specs.Meaning.{held};

use crate::Trail;

#[tactic(auto, unfolding(crate::specs::Meaning::held))]
impl<T: Copy> Trail<'_, T> {
    /// How many were put; it stays at 4,000,000,000.
    pub fn count(&self) -> u32
        ensures { result ≡ (held self.now).puts }
    {
        self.count
    }

    /// The entry of an age, where 0 is the newest, or none.
    pub fn entry(&self, age: usize) -> Option<T>
        ensures { result ≡ aged (held self.now).entries age }
    {
        if age >= self.used {
            return None;
        }
        Some(self.slots[self.slot(age)])
    }

    // Where the entry of an age stands. By cases, since the sum in `(n + next - 1 - age) % n` may not fit.
    fn slot(&self, age: usize) -> usize
        requires { age < self.now.used }
        ensures below { result < length self.now.slots.now }
        ensures cases { ((age < self.now.next) × (result + 1 + age ≡ self.now.next)) ⊎ ((self.now.next ≤ age) × (result + 1 + age ≡ length self.now.slots.now + self.now.next)) }
    {
        if age < self.next {
            self.next - 1 - age
        } else {
            self.slots.len() - 1 - (age - self.next)
        }
    }
}
