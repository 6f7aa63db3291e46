//! Linear programs over exact fractions.

ghost use Rattle.std.specs.Prelude.{◌≡◌, ◌<◌, length, [], slice_index_or};
ghost use Rattle.npp_lp.specs.ProgramOver.{lists_of, rights_of};
ghost use Rattle.npp_lp.specs.Meaning.{IsProgram};

use crate::lists::ProgramLists;
use npp_frac::Exact;
use std::marker::Model;

/// The coefficient of a row in a column.
#[derive(Clone, Copy, Debug)]
pub struct Entry<N> {
    /// The column, numbered from 0.
    pub column: u32,
    /// The coefficient, which is not 0.
    pub value: N,
}

/// Where the entries of a row stand among those of all rows: from `start` on, before `end`.
#[derive(Clone, Copy, Debug)]
pub(crate) struct Span {
    pub(crate) start: usize,
    pub(crate) end: usize,
}

/// A linear program: the greatest `goal * x` over all `x >= 0` with `rows * x <= right`.
///
/// The points `x` are over all rational numbers, whatever the width of `N`. The entries of a row stand in strictly rising
/// columns, each below the number of columns, and none is 0; a column without an entry has the coefficient 0. The rows and
/// the columns together are fewer than 2^31. Each value of this type keeps that; a
/// [`ProgramBuilder`](crate::ProgramBuilder) makes one.
#[derive(Debug, Drop)]
pub struct Program<N: Exact> {
    pub(crate) columns: u32,
    /// The entries of all rows, one row behind the other.
    pub(crate) entries: Vec<Entry<N>>,
    /// The place of each row among them.
    pub(crate) spans: Vec<Span>,
    pub(crate) right: Vec<N>,
    pub(crate) goal: Vec<N>,
}

impl<N: Exact> Model for Program<N> {
    ghost use Rattle.std.specs.Prelude.{◌≡◌, length};
    ghost use Rattle.npp_lp.specs.ProgramOver.{ProgramOver, AreSpans, written_rows};
    ghost use Rattle.npp_lp.specs.Meaning.{IsProgram};

    ghost Value = { ProgramOver N };

    ghost view = { λ p. record { columns = p.columns; rows = written_rows p.entries.items p.spans.items p.right.items; goal = p.goal.items } };

    ghost invariant = { λ p. (length p.right.items ≡ length p.spans.items) × AreSpans (length p.entries.items) p.spans.items × IsProgram N.rational (record { columns = p.columns; rows = written_rows p.entries.items p.spans.items p.right.items; goal = p.goal.items }) };
}

impl<N: Exact> Program<N> {
    /// How many columns there are, that is, how many numbers a point has.
    #[inline]
    pub fn columns(&self) -> u32
        ensures columns { result ≡ self.now.columns }
        ensures form { IsProgram N.rational self.now }
    {
        self.columns
    }

    /// How many rows there are.
    #[inline]
    pub fn row_count(&self) -> usize
        ensures rows { result ≡ length self.now.rows }
        ensures form { IsProgram N.rational self.now }
    {
        self.spans.len()
    }

    /// The entries of a row.
    #[inline]
    pub fn row(&self, row: usize) -> &[Entry<N>]
        requires { row < length self.now.rows }
        ensures { result.now ≡ slice_index_or (lists_of self.now) row [] }
    {
        let Span { start, end } = self.spans[row];
        &self.entries[start..end]
    }

    /// The right side of each row.
    #[inline]
    pub fn right(&self) -> &[N]
        ensures { result.now ≡ rights_of self.now }
    {
        &self.right
    }

    /// The coefficient of the goal in each column.
    #[inline]
    pub fn goal(&self) -> &[N]
        ensures { result.now ≡ self.now.goal }
    {
        &self.goal
    }

    /// Its memory, for the next program.
    pub fn into_lists(self) -> ProgramLists<N> {
        let Program {
            columns: _,
            entries,
            spans,
            right,
            goal,
        } = self;
        ProgramLists {
            entries,
            spans,
            right,
            goal,
        }
    }
}
