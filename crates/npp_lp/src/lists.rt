//! The memory of programs.

use crate::program::{Entry, Span};
use npp_frac::Exact;
use std::alloc::Global;
use std::marker::Model;

/// The memory of a program that is done with, for the next one. Contracts see nothing of it: no program depends on it.
#[derive(Drop)]
pub struct ProgramLists<N: Exact> {
    pub(crate) entries: Vec<Entry<N>>,
    pub(crate) spans: Vec<Span>,
    pub(crate) right: Vec<N>,
    pub(crate) goal: Vec<N>,
}

impl<N: Exact> Model for ProgramLists<N> {
    ghost use Rattle.std.specs.Prelude.{⊤};

    ghost Value = { ⊤ };

    ghost view = { λ lists. tt };
}

impl<N: Exact> ProgramLists<N> {
    /// Lists that have no memory yet.
    pub fn empty(alloc: Global) -> ProgramLists<N> {
        ProgramLists {
            entries: Vec::new(alloc),
            spans: Vec::new(alloc),
            right: Vec::new(alloc),
            goal: Vec::new(alloc),
        }
    }
}
