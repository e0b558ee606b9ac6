//! What a junction tells without changing.
ghost use Rattle.std.specs.Prelude.{◌≡◌, Bool};
ghost use Rattle.runs.specs.Runs.{holds};
ghost use Rattle.junction.specs.Telling.{HolderIs, place_at};

use crate::counts::Totals;
use crate::state::Junction;
use boards::Board;
use disciplines::Discipline;
use steps::MERGING;

impl<D: Discipline, B: Board> Junction<D, B> {
    // Whether a station that stands there holds the merge.
    pub(crate) fn holds(place: u8) -> bool
        ensures { result ≡ holds D.table place }
    {
        (D::grant()..=MERGING).contains(&place)
    }

    /// The station that holds the merge, or none.
    pub fn holder(&self) -> Option<usize>
        ensures { HolderIs D.table self.now result }
    {
        self.stations.at[..self.size.stations]
            .iter()
            .position(|x| Self::holds(x.rec.place))
    }

    /// Grants, ends and rounds.
    pub fn totals(&self) -> Totals
        ensures { result ≡ self.now.counts.totals }
    {
        self.counts.totals
    }

    /// Where a station stands, as the number that a record keeps; none where there is no such station.
    pub fn place(&self, p: usize) -> Option<u8>
        ensures { result ≡ place_at self.now p }
    {
        self.slot(p)
            .ok()
            .map(|slot| self.stations.get(slot).rec.place)
    }
}
