//! Numbers on the returned slip: what a call answers, as the number that a host or a report shows.
#![tactic(auto)]

ghost use Rattle.std.specs.Prelude.{◌≡◌, ℕ};
ghost use Rattle.numbers.specs.Numbers.{number_of};

/// What has a number on the slip.
// A trait and no `From` into `u8`, which could not be given for `Result`. Each enum says `self as u8` itself, since an impl that a
// macro of ours writes is not admitted.
pub trait Numbered {
    /// The number of each value.
    ghost numbered: { Self → ℕ };

    /// The number that is shown.
    fn number(self) -> u8
        ensures { result ≡ numbered self };
}

// What is done with nothing more to say: 0.
impl Numbered for () {
    ghost numbered = { λ done. 0 };

    fn number(self) -> u8 {
        0
    }
}

// An answer is shown by what was done, or by what refused it.
impl<T: Numbered, E: Numbered> Numbered for Result<T, E> {
    ghost numbered = { number_of T.numbered E.numbered };

    fn number(self) -> u8 {
        match self {
            Ok(done) => done.number(),
            Err(refusal) => refusal.number(),
        }
    }
}
