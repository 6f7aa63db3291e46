//! Rows as they go into a program.

ghost use Rattle.std.specs.Prelude.{◌≡◌, ◌<◌, ◌++◌, ◌∷◌, [], OnOk};
ghost use Rattle.npp_lp.specs.Programs.{AreTerms};
ghost use Rattle.npp_lp.specs.Meaning.{terms_of};

use npp_frac::Exact;
use npp_lp::{Entry, ProgramBuilder};
use npp_net::Memory;

/// Writes a row of entries with its right side into a program.
pub(crate) fn feed<N: Exact>(
    program: &mut ProgramBuilder<N>,
    entries: &[Entry<N>],
    right: N,
) -> Result<(), Memory>
    requires form { AreTerms program.old.columns (terms_of N.rational entries.now) }
    requires fresh { program.old.entries ≡ [] }
    requires first { program.old.next ≡ 0 }
    ensures { OnOk result (program.new ≡ record { columns = program.old.columns; rows = program.old.rows ++ record { entries = entries.now; right = right } ∷ []; entries = []; next = 0 }) }
{
    for entry in entries {
        match program.entry(entry.column, entry.value) {
            Ok(()) => {}
            Err(_) => return Err(Memory),
        }
    }
    match program.end_row(right) {
        Ok(()) => Ok(()),
        Err(_) => Err(Memory),
    }
}
