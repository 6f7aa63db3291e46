//! The end of phase one.

ghost use Rattle.std.specs.Prelude.{◌≡◌};
ghost use Rattle.npp_simplex.specs.Tableau.{without_extra};
ghost use Rattle.npp_simplex.specs.Run.{handed_on};

use crate::stage::Stage;
use crate::tableau::Tableau;
use npp_frac::Exact;

impl<N: Exact> Tableau<N> {
    /// Drops the goal row of phase one and the extra column.
    pub fn drop_extra(&mut self)
        ensures { self.new ≡ without_extra self.old }
    {
        let height = self.shape.height();
        for i in 0..height {
            self.clear_row(i);
        }
    }

    /// Drops them where phase one ends.
    pub fn hand_on(&mut self, stage: Stage, next: Stage)
        ensures { self.new ≡ handed_on stage next self.old }
    {
        match (stage, next) {
            (Stage::PhaseOne, Stage::PhaseTwo) => self.drop_extra(),
            _ => {}
        }
    }
}
