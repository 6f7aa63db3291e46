//! Times the reading of certificates. What it prints is the same on every run.
//!
//! The argument names a file, which is read by pieces, as `check` reads it: each line becomes its item, which is dropped. It
//! prints how many lines there are and how many of them are multipliers, or the first line that says nothing.
#![tactic(auto)]

mod lines;

use lines::Lines;
use npp_outside::{FileShelf, Shelf};
use std::{env, io};

/// How many bytes are asked for at a time.
const PIECE: usize = 65_536;

fn main(rt: HostRuntime) -> io::Result<()> {
    let alloc = rt.alloc();
    let mut name = String::new(alloc);
    for word in env::args(&rt)? {
        name = word;
    }
    let mut shelf = FileShelf::new(&rt);
    let Ok(mut lines) = Lines::new(alloc) else {
        return println!(rt; "memory");
    };
    let mut piece = [0u8; PIECE];
    let mut taken = 0u64;
    for _ in 0..u64::MAX {
        let Ok(count) = shelf.piece(name.as_str(), taken, &mut piece) else {
            return println!(rt; "no file");
        };
        if count == 0 {
            break;
        }
        let number = lines.count;
        if lines.take(&piece[..count]).is_none() {
            return println!(rt; "a line behind line {number} says nothing");
        }
        taken = taken.wrapping_add(count as u64);
    }
    let count = lines.count;
    let multipliers = lines.multipliers;
    println!(rt; "{count} lines, {multipliers} multipliers")
}
