//! The memory of programs, with the names of their rows.

ghost use Rattle.std.specs.Prelude.{◌≡◌, [], IfOk};
ghost use Rattle.npp_lp.specs.Building.{started};

use crate::names::RowName;
use npp_frac::Exact;
use npp_lp::{Entry, Program, ProgramBuilder, ProgramLists};
use npp_net::Memory;
use std::alloc::Global;
use std::marker::Model;
use std::mem;

/// Memory for programs whose rows have names. What one takes goes to the next one, so that programs of about the same size take
/// memory once. Contracts see the names of the rows of the last program that was made in it, and nothing else.
#[derive(Drop)]
pub struct ProgramRoom<N: Exact> {
    /// The names of the rows of the last program.
    pub(crate) rows: Vec<RowName>,
    /// The entries of its last row.
    pub(crate) entries: Vec<Entry<N>>,
    /// The memory of a program that is done with.
    lists: ProgramLists<N>,
}

impl<N: Exact> Model for ProgramRoom<N> {
    ghost use Rattle.std.specs.Prelude.{List};
    ghost use Rattle.npp_rows.specs.declared.names.RowName.{RowName};

    ghost Value = { List RowName };

    ghost view = { λ r. r.rows.items };
}

impl<N: Exact> ProgramRoom<N> {
    /// A room that has no memory yet.
    pub fn new(alloc: Global) -> ProgramRoom<N>
        ensures { result ≡ [] }
    {
        ProgramRoom {
            rows: Vec::new(alloc),
            entries: Vec::new(alloc),
            lists: ProgramLists::empty(alloc),
        }
    }

    /// The names of the rows of the last program, in order.
    pub fn rows(&self) -> &[RowName]
        ensures { result.now ≡ self.now }
    {
        &self.rows
    }

    /// Keeps the memory of a program that is done with.
    pub fn keep(&mut self, program: Program<N>)
        ensures { self.new ≡ self.old }
    {
        self.lists = program.into_lists();
    }

    /// A program of so many columns without rows, in the memory that is kept.
    pub(crate) fn builder(
        &mut self,
        alloc: Global,
        columns: u32,
    ) -> Result<ProgramBuilder<N>, Memory>
        ensures started { IfOk result (λ b. b ≡ started columns) }
        ensures same { self.new ≡ self.old }
    {
        let lists = mem::replace(&mut self.lists, ProgramLists::empty(alloc));
        match ProgramBuilder::over(lists, columns) {
            Ok(builder) => Ok(builder),
            Err(_) => Err(Memory),
        }
    }
}
