//! What a call answers in place of a value.

use std::alloc::AllocError;

/// There was not enough memory.
#[derive(Clone, Copy, PartialEq, Eq, Debug)]
pub struct Memory;

impl From<AllocError> for Memory {
    fn from(_error: AllocError) -> Memory {
        Memory
    }
}

/// The operations on fractions that can refuse.
#[derive(Clone, Copy, PartialEq, Eq, Debug)]
pub enum Op {
    Add,
    Sub,
    Mul,
    Div,
}

/// An operation whose numbers do not fit the width, with its operands as they were given.
#[derive(Clone, Copy, Debug)]
pub struct Overflow<N> {
    /// The first operand: the minuend of a difference, the dividend of a quotient.
    pub left: N,
    /// The second operand.
    pub right: N,
    /// The operation. It stands last, so that in a result an operand lies where a value would: with another field at
    /// that place the compiler moves values in parts, and an update of a tableau takes nearly twice as long.
    pub op: Op,
}
