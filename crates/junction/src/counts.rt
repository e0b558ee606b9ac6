//! What a junction counts.
ghost use Rattle.std.specs.Prelude.{◌≡◌, ℕ, Bool};
ghost use Rattle.junction.specs.Counts.{by_start, by_go, by_fail, by_leave, seen_with, noted, new_counts};

use sets::Set;
use steps::Size;

/// How many holds of the merge were granted, how many have ended, and how many rounds.
#[derive(Clone, Copy, PartialEq, Eq, Debug, Default)]
pub struct Totals {
    pub grants: u64,
    pub ends: u64,
    pub rounds: u64,
}

/// The accepted calls that the limit counts, the totals, and the stations seen in this round.
#[derive(Clone, Copy, Default)]
pub struct Counts {
    pub(crate) used: u64,
    pub(crate) totals: Totals,
    pub(crate) seen: Set,
}

/// What an accepted call counts as.
// Four flags and no enum of calls: each is what one count, or the set of the stations seen, goes by.
#[derive(Clone, Copy, Default)]
pub struct Note {
    /// The limit counts it.
    pub(crate) limited: bool,
    /// It granted a hold.
    pub(crate) granted: bool,
    /// It ended a hold.
    pub(crate) ended: bool,
    /// The station is seen by it.
    pub(crate) shown: bool,
}

impl Note {
    // By a start or a stir.
    pub(crate) fn by_start() -> Self
        ensures { result ≡ by_start }
    {
        Note {
            limited: true,
            ..Note::default()
        }
    }

    pub(crate) fn by_go(granted: bool) -> Self
        ensures { result ≡ by_go granted }
    {
        Note {
            limited: true,
            granted,
            shown: true,
            ..Note::default()
        }
    }

    pub(crate) fn by_fail(ended: bool) -> Self
        ensures { result ≡ by_fail ended }
    {
        Note {
            limited: true,
            ended,
            ..Note::default()
        }
    }

    pub(crate) fn by_leave(ended: bool) -> Self
        ensures { result ≡ by_leave ended }
    {
        Note {
            ended,
            shown: true,
            ..Note::default()
        }
    }
}

impl Counts {
    pub(crate) fn new() -> Self
        ensures { result ≡ new_counts }
    {
        Counts::default()
    }

    fn seen_with(self, note: Note, p: usize) -> Set
        ensures { result ≡ seen_with note p self.seen }
    {
        if note.shown {
            self.seen.insert(p)
        } else {
            self.seen
        }
    }

    // A call of station p is counted. A round ends when all stations have been seen. No count comes near what 64 bits hold; the
    // promise on `Junction::make` shows that.
    pub(crate) fn noted(self, note: Note, size: Size, p: usize) -> Self
        ensures { result ≡ noted note size.stations p self }
    {
        let seen = self.seen_with(note, p);
        let round = note.shown && seen.covers(size.stations);
        let used = self.used.saturating_add(note.limited.into());
        let totals = Totals {
            grants: self.totals.grants.saturating_add(note.granted.into()),
            ends: self.totals.ends.saturating_add(note.ended.into()),
            rounds: self.totals.rounds.saturating_add(round.into()),
        };
        let seen = if round { Set::empty() } else { seen };
        Counts { used, totals, seen }
    }
}
