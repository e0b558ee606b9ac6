//! Events and their letters.
ghost use Rattle.std.specs.Prelude.{◌≡◌, Some};
ghost use Rattle.schedule.specs.Letters.{event_of, letter_of, station_of, pick_of};

/// What a schedule asks of a station. `Leave` stands for two calls: take a pass, then leave with it.
#[derive(Clone, Copy, PartialEq, Eq, Debug)]
pub enum Event {
    Start { station: u8 },
    Go { station: u8, pick: u8 },
    Stir { station: u8 },
    Fail { station: u8 },
    Leave { station: u8 },
}

impl Event {
    /// The event of a letter and its two operands. Only a go looks at the pick.
    // No `TryFrom<[u8; 3]>`: the three bytes do not lie together, and an array would not name the two operands.
    pub(crate) fn of_letter(letter: u8, station: u8, pick: u8) -> Option<Self>
        ensures { result ≡ event_of letter station pick }
    {
        match letter as char {
            'S' => Some(Event::Start { station }),
            'G' => Some(Event::Go { station, pick }),
            'W' => Some(Event::Stir { station }),
            'F' => Some(Event::Fail { station }),
            'L' => Some(Event::Leave { station }),
            _ => None,
        }
    }

    /// The letter of the event. With its operands it reads as the same event again.
    pub fn letter(self) -> u8
        ensures value { result ≡ letter_of self }
        ensures again { event_of result (station_of self) (pick_of self) ≡ Some self }
    {
        // A match, since variants that hold a station rule discriminants out.
        match self {
            Event::Start { .. } => b'S',
            Event::Go { .. } => b'G',
            Event::Stir { .. } => b'W',
            Event::Fail { .. } => b'F',
            Event::Leave { .. } => b'L',
        }
    }

    /// The station that the event names, whether or not there is one.
    pub fn station(self) -> u8
        ensures { result ≡ station_of self }
    {
        match self {
            Event::Start { station }
            | Event::Go { station, .. }
            | Event::Stir { station }
            | Event::Fail { station }
            | Event::Leave { station } => station,
        }
    }
}
