//! The lines of a text that comes by pieces.

ghost use Rattle.std.specs.Prelude.{◌<◌, length, IfSome};

use npp_cert_text::{MAX_LINE, read_line};
use npp_tree::Item;
use std::alloc::{AllocError, Global};

/// The bytes of the line that is still open, and what the lines before it were.
#[derive(Drop)]
pub struct Lines {
    alloc: Global,
    open: Vec<u8>,
    /// How many lines were read.
    pub count: u64,
    /// How many of them are multipliers.
    pub multipliers: u64,
}

impl Lines {
    /// No line yet.
    pub fn new(alloc: Global) -> Result<Lines, AllocError> {
        let open = Vec::with_capacity(alloc, MAX_LINE)?;
        Ok(Lines {
            alloc,
            open,
            count: 0,
            multipliers: 0,
        })
    }

    /// Reads each line that the piece ends, and keeps the bytes of the one that stays open. None where a line says nothing.
    pub fn take(&mut self, piece: &[u8]) -> Option<()> {
        let mut rest = piece;
        for _ in 0..u64::MAX {
            let Some(end) = line_feed(rest) else {
                break;
            };
            self.end_line(&rest[..end])?;
            let behind = &rest[end..];
            if behind.is_empty() {
                break;
            }
            rest = &behind[1..];
        }
        self.go_on(rest)
    }

    fn end_line(&mut self, bytes: &[u8]) -> Option<()> {
        if self.open.is_empty() {
            let is_multiplier = is_multiplier(self.alloc, bytes)?;
            return self.add(is_multiplier);
        }
        self.go_on(bytes)?;
        let is_multiplier = is_multiplier(self.alloc, &self.open)?;
        self.open.clear();
        self.add(is_multiplier)
    }

    fn add(&mut self, is_multiplier: bool) -> Option<()> {
        self.count = self.count.wrapping_add(1);
        self.multipliers = self.multipliers.wrapping_add(u64::from(is_multiplier));
        Some(())
    }

    fn go_on(&mut self, bytes: &[u8]) -> Option<()> {
        if MAX_LINE.saturating_sub(self.open.len()) < bytes.len() {
            return None;
        }
        match self.open.extend_from_slice(bytes) {
            Ok(()) => Some(()),
            Err(_) => None,
        }
    }
}

/// Whether the line is a multiplier, where it says something.
fn is_multiplier(alloc: Global, line: &[u8]) -> Option<bool> {
    let Ok(found) = read_line(alloc, line) else {
        return None;
    };
    let item = found?;
    Some(matches!(item, Item::Mult(_)))
}

/// Where the first line feed stands.
fn line_feed(bytes: &[u8]) -> Option<usize>
    ensures { IfSome result (λ i. i < length bytes.now) }
{
    bytes.iter().position(|b| *b == b'\n')
}
