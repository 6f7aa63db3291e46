//! Room for the lists of a pivot.

ghost use Rattle.std.specs.Prelude.{◌≡◌, ◌+◌, ◌^◌, ◌<◌, length, IfOk};
ghost use Rattle.std.specs.List.{range_with_len};
ghost use Rattle.npp_simplex.specs.Standing.{IsRoom};

use crate::line::Line;
use crate::long::Long;
use crate::numbers::zero;
use crate::shape::Shape;
use npp_frac::{Exact, Memory};
use std::alloc::Global;

/// Room for the lists of a pivot. No pivot takes more memory than this.
#[derive(Drop)]
pub struct Room<N: Exact> {
    /// The rows that may leave the basis.
    pub candidates: Vec<u32>,
    /// What the candidates are compared by.
    pub numbers: Vec<N>,
    /// A row of the tableau.
    pub divided: Line<N>,
    /// Columns of the tableau.
    pub columns: Vec<u32>,
}

/// A list of zeros, in the memory of another list.
pub fn zeros<N: Exact>(room: Vec<N>, count: usize) -> Result<Vec<N>, Memory>
    ensures { IfOk result (λ list. length list.items ≡ count) }
{
    let mut list = room;
    list.clear();
    list.reserve(count)?;
    for _i in 0..count {
        match list.push(zero()) {
            Ok(()) => {}
            Err(_) => return Err(Memory),
        }
    }
    Ok(list)
}

/// The numbers from `first` on, as many as are wanted, in the memory of another list.
pub fn numbers_from(room: Vec<u32>, first: usize, count: usize) -> Result<Vec<u32>, Memory>
    requires { first + count < 2 ^ 32 }
    ensures { IfOk result (λ list. list.items ≡ range_with_len first count) }
{
    let mut list = room;
    list.clear();
    list.reserve(count)?;
    for i in 0..count {
        match list.push((first + i) as u32) {
            Ok(()) => {}
            Err(_) => return Err(Memory),
        }
    }
    Ok(list)
}

impl<N: Exact> Room<N> {
    /// No room.
    pub fn empty(alloc: Global) -> Room<N> {
        Room {
            candidates: Vec::new(alloc),
            numbers: Vec::new(alloc),
            divided: Line::empty(alloc),
            columns: Vec::new(alloc),
        }
    }

    /// Room for a tableau of this size, in the memory of this room.
    pub fn fit(self, shape: Shape) -> Result<Room<N>, Memory>
        ensures { IfOk result (IsRoom shape.rows shape.columns) }
    {
        let Room {
            candidates,
            numbers,
            divided,
            columns,
        } = self;
        let candidates = numbers_from(candidates, 0, shape.rows)?;
        let numbers = zeros(numbers, shape.width())?;
        let columns = numbers_from(columns, 0, shape.width())?;
        let Line { words, long, .. } = divided;
        let Long {
            words: long_words,
            fractions,
            ..
        } = long;
        let fractions = zeros(fractions, shape.width())?;
        let divided = Line::over(words, long_words, fractions)?;
        Ok(Room {
            candidates,
            numbers,
            divided,
            columns,
        })
    }
}
