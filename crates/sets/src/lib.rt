//! Sets of numbers below 32.
#![tactic(auto)]

ghost use Rattle.std.specs.Prelude.{◌≡◌, ◌^◌, cond, nat_lt, bit_xor};
ghost use Rattle.sets.specs.Sets.{of_bits, has, plus, without, none, first, above, is_none, everywhere};

/// A set of numbers below 32, one bit for each.
#[derive(Clone, Copy, Default, PartialEq, Eq, Debug)]
pub struct Set {
    bits: u32,
}

#[tactic(auto, unfolding(crate::specs::Sets::has, crate::specs::Sets::none, crate::specs::Sets::first, crate::specs::Sets::above, crate::specs::Sets::plus, crate::specs::Sets::without))]
impl Set {
    /// The set without members.
    pub fn empty() -> Self
        ensures { result ≡ none }
    {
        Set { bits: 0 }
    }

    /// All numbers below n; where n is above 32, those below 32.
    pub fn below(n: usize) -> Self
        ensures { result ≡ first n }
    {
        if n < 32 {
            Set { bits: (1 << n) - 1 }
        } else {
            Set { bits: u32::MAX }
        }
    }

    /// All numbers above p and below n.
    pub fn above(n: usize, p: usize) -> Self
        ensures { result ≡ above n p }
    {
        if p >= n {
            return Set::empty();
        }
        let all = Set::below(n);
        let low = Set::below(p + 1);
        Set {
            bits: all.bits ^ low.bits,
        }
    }

    /// Whether k is a member.
    pub fn contains(self, k: usize) -> bool
        ensures { result ≡ has self k }
    {
        k < 32 && (self.bits >> k) % 2 == 1
    }

    /// Whether it has no member.
    pub fn is_empty(self) -> bool
        ensures { result ≡ is_none self }
    {
        self.bits == 0
    }

    /// Whether all numbers below n are members.
    pub fn covers(self, n: usize) -> bool
        ensures { result ≡ everywhere n (has self) }
    {
        n <= self.bits.trailing_ones() as usize
    }

    /// The set with k, where k is below 32.
    #[tactic(auto, using(crate::proofs::Bitwise::taking_in))]
    pub fn insert(self, k: usize) -> Self
        ensures { result ≡ plus k self }
    {
        if k < 32 {
            Set {
                bits: self.bits | (1 << k),
            }
        } else {
            self
        }
    }

    /// The set without k.
    #[tactic(auto, using(crate::proofs::Bitwise::taking_out))]
    pub fn remove(self, k: usize) -> Self
        ensures { result ≡ without k self }
    {
        if k < 32 {
            Set {
                bits: self.bits & !(1 << k),
            }
        } else {
            self
        }
    }
}
