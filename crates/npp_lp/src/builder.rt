//! Programs row by row.

ghost use Rattle.std.specs.Prelude.{◌≡◌, ◌<◌, ◌≤◌, ◌++◌, [], length, IfOk, OnOk, OnErr};
ghost use Rattle.npp_lp.specs.Building.{started, entry_at, with_entry, with_row, program_of};

use crate::lists::ProgramLists;
use crate::program::{Entry, Program, Span};
use npp_frac::{Exact, Memory, is_zero};
use std::alloc::Global;
use std::marker::Model;
use std::mem;

/// The rows and the columns of a program are together fewer than this.
const MOST: usize = 1 << 31;

/// A program in the making: rows, each of entries in rising columns and a right side, and last the goal.
///
/// What it gives is a program, whatever was written. Each call takes constant time, but for the growth of the lists.
#[derive(Drop)]
pub struct ProgramBuilder<N: Exact> {
    columns: u32,
    /// The entries of the rows that have ended, and behind them those of the row that is being written.
    entries: Vec<Entry<N>>,
    spans: Vec<Span>,
    right: Vec<N>,
    /// A list for the goal, until it is taken.
    goal: Vec<N>,
    /// Where the entries of the row that is being written begin.
    begin: usize,
    next: u32,
}

impl<N: Exact> Model for ProgramBuilder<N> {
    ghost use Rattle.std.specs.Prelude.{◌≡◌, ◌≤◌, length, drop};
    ghost use Rattle.npp_lp.specs.ProgramOver.{AreSpans, written_rows};
    ghost use Rattle.npp_lp.specs.Building.{Started, IsStarted};

    ghost Value = { Started N };

    ghost view = { λ b. record { columns = b.columns; rows = written_rows b.entries.items b.spans.items b.right.items; entries = drop b.begin b.entries.items; next = b.next } };

    ghost invariant = { λ b. (length b.right.items ≡ length b.spans.items) × (b.begin ≤ length b.entries.items) × AreSpans b.begin b.spans.items × IsStarted N.rational (record { columns = b.columns; rows = written_rows b.entries.items b.spans.items b.right.items; entries = drop b.begin b.entries.items; next = b.next }) };
}

/// Writes what a row has in a column, unless it is 0.
fn push_unless_zero<N: Exact>(
    entries: &mut Vec<Entry<N>>,
    column: u32,
    value: N,
) -> Result<(), Memory>
    ensures ok { OnOk result (entries.new.items ≡ entries.old.items ++ entry_at N.rational column value) }
    ensures err { OnErr result (entries.new.items ≡ entries.old.items) }
{
    if is_zero(value) {
        return Ok(());
    }
    entries.reserve(1)?;
    entries.push_reserved(Entry { column, value });
    Ok(())
}

impl<N: Exact> ProgramBuilder<N> {
    /// Begins a program with so many columns. From 2^31 columns on it answers `Memory`: a goal of so many numbers would
    /// take 16 GiB at least.
    pub fn new(alloc: Global, columns: u32) -> Result<Self, Memory>
        ensures { IfOk result (λ b. b ≡ started columns) }
    {
        ProgramBuilder::over(ProgramLists::empty(alloc), columns)
    }

    /// The same, in the memory of an earlier program.
    pub fn over(lists: ProgramLists<N>, columns: u32) -> Result<Self, Memory>
        ensures { IfOk result (λ b. b ≡ started columns) }
    {
        if columns as usize >= MOST {
            return Err(Memory);
        }
        let ProgramLists {
            mut entries,
            mut spans,
            mut right,
            goal,
        } = lists;
        entries.clear();
        spans.clear();
        right.clear();
        Ok(ProgramBuilder {
            columns,
            entries,
            spans,
            right,
            goal,
            begin: 0,
            next: 0,
        })
    }

    /// Writes what the row has in a column, behind the columns before it. A value of 0 leaves no entry.
    pub fn entry(&mut self, column: u32, value: N) -> Result<(), Memory>
        requires rising { self.old.next ≤ column }
        requires within { column < self.old.columns }
        ensures ok { OnOk result (self.new ≡ with_entry N.rational self.old column value) }
        ensures err { OnErr result (self.new ≡ self.old) }
    {
        push_unless_zero(&mut self.entries, column, value)?;
        self.next = column + 1;
        Ok(())
    }

    /// Ends the row by its right side; the next row begins at column 0.
    ///
    /// Where the rows and the columns together would reach 2^31 it answers `Memory`: so many would take 16 GiB at least.
    pub fn end_row(&mut self, right: N) -> Result<(), Memory>
        ensures ok { OnOk result (self.new ≡ with_row self.old right) }
        ensures err { OnErr result (self.new ≡ self.old) }
    {
        if self.spans.len() >= MOST - 1 - self.columns as usize {
            return Err(Memory);
        }
        self.spans.reserve(1)?;
        self.right.reserve(1)?;
        let start = self.begin;
        let end = self.entries.len();
        self.spans.push_reserved(Span { start, end });
        self.right.push_reserved(right);
        self.begin = end;
        self.next = 0;
        Ok(())
    }

    /// An empty list for the goal. The first one has the memory of an earlier goal.
    pub fn goal_list(&mut self, alloc: Global) -> Vec<N>
        ensures empty { result.items ≡ [] }
        ensures same { self.new ≡ self.old }
    {
        let mut goal = mem::replace(&mut self.goal, Vec::new(alloc));
        goal.clear();
        goal
    }

    /// The program with the rows that were ended.
    pub fn finish(self, goal: Vec<N>) -> Program<N>
        requires goal { length goal.items ≡ self.columns }
        requires ended { self.entries ≡ [] }
        ensures { result ≡ program_of self goal.items }
    {
        let ProgramBuilder {
            columns,
            entries,
            spans,
            right,
            goal: _,
            begin: _,
            next: _,
        } = self;
        Program {
            columns,
            entries,
            spans,
            right,
            goal,
        }
    }
}
