//! A network whose best tolls take too many pivots.

use std::alloc::{AllocError, Global};

/// The text of a network with 24 toll arcs and 48 commodities. In the inverse program of the choice of path 0 of each, a toll is at
/// least the one before it, and both together are at most one less than a power of 2, which rises from toll to toll. So the tolls have
/// a corner for each subset, in a cube that is bent as that of Klee and Minty, and the run goes through a great part of its corners.
pub fn bent_cube(alloc: Global) -> Result<String, AllocError> {
    let mut text = String::from_str(alloc, "npp 1\nnode t\nnode u\nnode q0\n")?;
    push_tolls(&mut text)?;
    push_long_way(&mut text)?;
    push_rising(&mut text)?;
    push_bounded(&mut text)?;
    text.push_str("free t s23 0\nfree e23 u 0\nfree t q0 0\nfree q17 u 0\n")?;
    for i in 1..24_u32 {
        writeln!(text, "pair a{i} b{i} 1")?;
    }
    for i in 0..24_u32 {
        writeln!(text, "pair c{i} d{i} 1")?;
    }
    text.push_str("pair t u 75\n")?;
    Ok(text)
}

/// The toll arcs, each from the end of the one before it on.
fn push_tolls(text: &mut String) -> Result<(), AllocError> {
    for i in 0..24_u32 {
        writeln!(text, "node s{i}\nnode e{i}\ntoll s{i} e{i} 0")?;
    }
    for i in 1..24_u32 {
        writeln!(text, "free e{} s{i} 0", i - 1)?;
    }
    Ok(())
}

/// The way that is as long as 17 of the longest arcs.
fn push_long_way(text: &mut String) -> Result<(), AllocError> {
    for i in 1..18_u32 {
        writeln!(text, "node q{i}\nfree q{} q{i} 1000000", i - 1)?;
    }
    Ok(())
}

/// Commodities that take each toll arc but the last, where the next one would do as well.
fn push_rising(text: &mut String) -> Result<(), AllocError> {
    for i in 1..24_u32 {
        let before = i - 1;
        writeln!(text, "node a{i}\nnode b{i}")?;
        writeln!(text, "free a{i} s{before} 0\nfree e{before} b{i} 0")?;
        writeln!(text, "free a{i} s{i} 0\nfree e{i} b{i} 0")?;
        writeln!(text, "free a{i} q0 0\nfree q17 b{i} 0")?;
    }
    Ok(())
}

/// Commodities that take each toll arc behind the one before it, beside a toll-free way.
fn push_bounded(text: &mut String) -> Result<(), AllocError> {
    let mut cost = 0_u32;
    for i in 0..24_u32 {
        cost = cost.saturating_mul(2).saturating_add(1);
        let (before, first) = (i.saturating_sub(1), 17_u32.saturating_sub(cost / 1_000_000));
        let rest = cost % 1_000_000;
        writeln!(text, "node c{i}\nnode d{i}")?;
        writeln!(text, "free c{i} s{before} 0\nfree e{i} d{i} 0")?;
        writeln!(text, "free c{i} q{first} {rest}\nfree q17 d{i} 0")?;
    }
    Ok(())
}
