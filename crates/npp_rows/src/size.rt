//! Whether a relaxation is too large to be made.

ghost use Rattle.std.specs.Prelude.{◌≡◌, ◌≤◌, ◌*◌, nat_lt, length, map};
ghost use Rattle.npp_rows.specs.Meaning.{cut_value};
ghost use Rattle.npp_rows.specs.Relax.{relaxation, is_large};

use crate::cut::CutRow;
use crate::index::RelaxationIndex;
use npp_frac::Exact;

/// The most that the rows times the columns may come to.
const MOST: u64 = 1_000_000;

impl RelaxationIndex<'_> {
    /// Whether the relaxation with some cuts is too large: its rows times its columns are over 1,000,000. They are counted, not
    /// listed.
    pub fn is_large<N: Exact>(&self, cuts: &[CutRow<N>]) -> bool
        requires { length cuts.now ≤ 16777216 }
        ensures { result ≡ is_large (relaxation self.now.paths self.now.parts (map (cut_value N.rational) cuts.now)) }
    {
        let table = self.table();
        let commodities = table.commodities();
        let rows = table.tolls()
            + table.paths_below(commodities)
            + 3 * self.paid_below(commodities)
            + 2 * commodities
            + cuts.len() as u32;
        are_too_many(rows, self.first_paid(commodities))
    }
}

/// Whether so many rows and columns are too many.
fn are_too_many(rows: u32, columns: u32) -> bool
    ensures { result ≡ nat_lt 1000000 (rows * columns) }
{
    u64::from(rows) * u64::from(columns) > MOST
}
