//! Times exact fractions and the checks of programs. What it prints is the same on every run.
//!
//! A line `WIDTH BITS COUNT` of the input takes all `a - b * c` over so many fractions, with numerators and denominators
//! of a length in bits, 0 for whole numbers, and prints a sum of the numbers of the answers. A line
//! `dual ROWS COLUMNS NONZERO` checks a dual answer with so many multipliers above 0, and prints its value. A line
//! `simplex WIDTH ROWS COLUMNS MOST` runs the simplex on a generated program, and prints the pivots and the greatest goal.
//! A line `triples WIDTH REPEAT n d n d ..` takes `a - b * c` of the listed triples `a b c`, a numerator and a denominator
//! for each number, as often as REPEAT says, and prints how many they are and the same kind of sum.
#![tactic(auto)]

mod dual;
mod interval;
mod pass;
mod simplex;
mod triples;

use dual::checked;
use npp_frac::{Exact, Frac32, Frac64, Frac128};
use pass::pass;
use simplex::solved;
use std::alloc::{AllocError, Global};
use std::io;
use triples::replay;

/// The three numbers of a line.
fn numbers(line: &str) -> Option<(u32, u32, u32)> {
    let mut words = line.split_whitespace();
    let first = words.next()?.parse::<u32>().ok()?;
    let second = words.next()?.parse::<u32>().ok()?;
    let third = words.next()?.parse::<u32>().ok()?;
    Some((first, second, third))
}

fn main(rt: HostRuntime) -> io::Result<()> {
    for line in rt.lines(rt.alloc()) {
        let answer = answer(rt.alloc(), line?.as_str())?;
        println!(rt; "{answer}")?;
    }
    Ok(())
}

/// What is printed of a line.
fn answer(alloc: Global, line: &str) -> Result<String, AllocError> {
    match line.split_once(' ') {
        Some(("dual", sizes)) => dual_answer(alloc, sizes),
        Some(("simplex", line)) => match line.split_once(' ') {
            Some(("64", sizes)) => simplex_answer::<Frac64>(alloc, 64, sizes),
            Some(("128", sizes)) => simplex_answer::<Frac128>(alloc, 128, sizes),
            _ => format!(in alloc; "width, bits and count are wanted"),
        },
        Some(("triples", list)) => triples_answer(alloc, list),
        _ => pass_answer(alloc, line),
    }
}

/// Takes all triples of some fractions.
fn pass_answer(alloc: Global, line: &str) -> Result<String, AllocError> {
    let Some((width, bits, count)) = numbers(line) else {
        return format!(in alloc; "width, bits and count are wanted");
    };
    let sum = match width {
        32 => pass::<Frac32>(alloc, bits, count)?,
        64 => pass::<Frac64>(alloc, bits, count)?,
        _ => pass::<Frac128>(alloc, bits, count)?,
    };
    format!(in alloc; "width {width} bits {bits} count {count}: {sum}")
}

/// Checks a dual answer of the sizes of a line.
fn dual_answer(alloc: Global, sizes: &str) -> Result<String, AllocError> {
    let Some((rows, columns, nonzero)) = numbers(sizes) else {
        return format!(in alloc; "rows, columns and nonzero multipliers are wanted");
    };
    let Ok(value) = checked(alloc, rows, columns, nonzero) else {
        return format!(in alloc; "too little memory");
    };
    format!(in alloc; "rows {rows} columns {columns} nonzero {nonzero}: {value}")
}

/// Runs the simplex on a program of the sizes of a line.
fn simplex_answer<N: Exact>(alloc: Global, width: u32, sizes: &str) -> Result<String, AllocError> {
    let Some((rows, columns, most)) = numbers(sizes) else {
        return format!(in alloc; "rows, columns and the greatest factor are wanted");
    };
    let Ok(Some(end)) = solved::<N>(alloc, rows, columns, most) else {
        return format!(in alloc;
            "width {width} rows {rows} columns {columns} most {most}: no optimum"
        );
    };
    format!(in alloc;
        "width {width} rows {rows} columns {columns} most {most}: {} pivots, optimal {}/{}",
        end.pivots, end.num, end.den
    )
}

/// Takes the triples that a line lists.
fn triples_answer(alloc: Global, list: &str) -> Result<String, AllocError> {
    let answer = match list.split_once(' ') {
        Some(("32", list)) => replay::<Frac32>(alloc, list)?,
        Some(("64", list)) => replay::<Frac64>(alloc, list)?,
        Some(("128", list)) => replay::<Frac128>(alloc, list)?,
        _ => None,
    };
    let Some(replay) = answer else {
        return format!(in alloc; "width, repeats and the numbers of triples are wanted");
    };
    format!(in alloc;
        "width {} triples {} repeated {}: {}",
        replay.width, replay.count, replay.repeat, replay.sum
    )
}
