//! The memory of the work on programs.

ghost use Rattle.std.specs.Prelude.{◌≡◌, []};

use npp_frac::Exact;
use npp_rows::ProgramRoom;
use std::alloc::Global;

/// Memory for the work on programs, one after the other: for the programs and for their runs. Contracts see the names of the rows
/// of the last program alone.
#[derive(Drop)]
pub struct Workspace<N: Exact> {
    /// The memory of the programs.
    pub programs: ProgramRoom<N>,
    /// The memory of their runs.
    pub runs: npp_simplex::Workspace<N>,
}

impl<N: Exact> Workspace<N> {
    /// A workspace that has no memory yet.
    pub fn new(alloc: Global) -> Workspace<N> {
        Workspace {
            programs: ProgramRoom::new(alloc),
            runs: npp_simplex::Workspace::new(alloc),
        }
    }
}
