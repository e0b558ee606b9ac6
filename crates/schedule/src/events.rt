//! The events of a schedule, one after another.
ghost use Rattle.std.specs.Prelude.{◌≡◌, ℕ, ◌*◌, length, None};
ghost use Rattle.std.proofs.Props.{props};
ghost use Rattle.schedule.specs.Events.{first_unknown};

use crate::event::Event;

/// Events that are still to come, in the bytes that they were read from.
// Two slices side by side, since the format puts all letters before the first operand.
#[derive(Clone, Copy)]
pub struct Events<'a> {
    pub(crate) letters: &'a [u8],
    pub(crate) operands: &'a [u8],
    ghost known: { first_unknown letters.now ≡ None } by { Prim.hlevel props },
    ghost paired: { length operands.now ≡ 2 * length letters.now },
}

impl Iterator for Events<'_> {
    ghost use Rattle.std.specs.Iterator.{YieldsFirst, item_count};
    ghost use Rattle.schedule.specs.Left.{left};

    type Item = Event;

    ghost next_gives = { YieldsFirst left };

    ghost remaining = { item_count left };

    fn next(&mut self) -> Option<Event> {
        let ([letter, letters @ ..], [station, pick, operands @ ..]) = (self.letters, self.operands)
        else {
            return None;
        };
        self.letters = letters;
        self.operands = operands;
        Event::of_letter(*letter, *station, *pick)
    }
}
