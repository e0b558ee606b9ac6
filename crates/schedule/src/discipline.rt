//! The letter that opens a schedule.
ghost use Rattle.std.specs.Prelude.{◌≡◌};
ghost use Rattle.schedule.specs.Letters.{discipline_of};

use crate::refusal::Refusal;

/// How the stations agree on who holds the merge.
#[derive(Clone, Copy, PartialEq, Eq, Debug)]
pub enum DisciplineKind {
    FourLine,
    Plain,
}

impl TryFrom<u8> for DisciplineKind {
    type Error = Refusal;

    ghost try_from_gives = { λ letter r. r ≡ discipline_of letter };

    fn try_from(letter: u8) -> Result<Self, Refusal> {
        match letter as char {
            'A' => Ok(DisciplineKind::FourLine),
            'B' => Ok(DisciplineKind::Plain),
            _ => Err(Refusal::UnknownDiscipline),
        }
    }
}
