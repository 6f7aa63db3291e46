//! The memory of runs.

ghost use Rattle.std.specs.Prelude.{◌≡◌, [], IfOk};

use crate::line::Line;
use crate::room::Room;
use crate::tableau::Tableau;
use npp_frac::{Exact, Memory};
use std::alloc::Global;
use std::marker::Model;
use std::mem;

/// Memory for runs of the simplex. What one takes goes to the next one that is given the same workspace, so that runs of about the
/// same size take memory once. Contracts see nothing of it: no answer depends on it.
#[derive(Drop)]
pub struct Workspace<N: Exact> {
    /// The rows of the last tableau.
    lines: Vec<Line<N>>,
    /// Further rows.
    spare: Vec<Line<N>>,
    /// The basis of the last run.
    basis: Vec<u32>,
    /// Its room for the lists of a pivot.
    room: Room<N>,
}

impl<N: Exact> Model for Workspace<N> {
    ghost use Rattle.std.specs.Prelude.{⊤};

    ghost Value = { ⊤ };

    ghost view = { λ w. tt };
}

impl<N: Exact> Workspace<N> {
    /// A workspace that has no memory yet.
    pub fn new(alloc: Global) -> Workspace<N> {
        Workspace {
            lines: Vec::new(alloc),
            spare: Vec::new(alloc),
            basis: Vec::new(alloc),
            room: Room::empty(alloc),
        }
    }

    /// An empty list of rows. Those of the last tableau are spare from here on.
    pub(crate) fn line_list(&mut self, alloc: Global) -> Result<Vec<Line<N>>, Memory>
        ensures { IfOk result (λ list. list.items ≡ []) }
    {
        let mut lines = mem::replace(&mut self.lines, Vec::new(alloc));
        for _i in 0..lines.len() {
            let Some(line) = lines.pop() else {
                break;
            };
            match self.spare.push(line) {
                Ok(()) => {}
                Err(_) => return Err(Memory),
            }
        }
        lines.clear();
        Ok(lines)
    }

    /// A row whose lists may be used, of whatever length.
    pub(crate) fn spare_line(&mut self, alloc: Global) -> Line<N> {
        match self.spare.pop() {
            Some(line) => line,
            None => Line::empty(alloc),
        }
    }

    /// The list of the last basis.
    pub(crate) fn basis_list(&mut self, alloc: Global) -> Vec<u32> {
        mem::replace(&mut self.basis, Vec::new(alloc))
    }

    /// The room of the last run.
    pub(crate) fn last_room(&mut self, alloc: Global) -> Room<N> {
        mem::replace(&mut self.room, Room::empty(alloc))
    }

    /// Keeps the memory of a run that ends.
    pub(crate) fn keep(&mut self, tableau: Tableau<N>, basis: Vec<u32>, room: Room<N>) {
        let Tableau { lines, .. } = tableau;
        self.lines = lines;
        self.basis = basis;
        self.room = room;
    }
}
