//! Times the search for useful covers and the check of their drafts. What it prints is the same on every run.
//!
//! The first line of the input is `SEARCHES CHECKS`, and the others are the text of an instance. For each commodity it lists the
//! useful cover, as often as SEARCHES says, and after each time checks the draft of that cover, as often as CHECKS says. It
//! prints how many labels and paths the covers of all commodities have, and how many checks gave the labels again.
#![tactic(auto)]

mod counts;

use counts::count_all;
use npp_bounds::free_and_zero;
use npp_reader::{Document, read};
use std::alloc::Global;
use std::io;

/// How often there is to be a search, and how often a check after each.
#[derive(Clone, Copy)]
struct Repeats {
    searches: u32,
    checks: u32,
}

/// The two numbers of a line.
fn repeats_of(line: &str) -> Option<Repeats> {
    let mut words = line.split_whitespace();
    let searches = words.next()?.parse::<u32>().ok()?;
    let checks = words.next()?.parse::<u32>().ok()?;
    Some(Repeats { searches, checks })
}

fn main(rt: HostRuntime) -> io::Result<()> {
    let alloc = rt.alloc();
    let mut repeats = None;
    let mut text = Vec::new(alloc);
    for line in rt.lines(alloc) {
        let line = line?;
        if repeats.is_none() {
            repeats = repeats_of(line.as_str());
        } else {
            text.extend_from_slice(line.as_bytes())?;
            text.push(b'\n')?;
        }
    }
    let Some(repeats) = repeats else {
        return println!(rt; "how many searches and checks is wanted");
    };
    match read(alloc, &text) {
        Ok(document) => print_counts(&rt, alloc, &document, repeats),
        Err(_) => println!(rt; "an instance is wanted"),
    }
}

/// Prints what the covers of the instance have.
fn print_counts(
    rt: &impl Print,
    alloc: Global,
    document: &Document,
    repeats: Repeats,
) -> io::Result<()> {
    let instance = &document.instance;
    let Ok(spans) = free_and_zero(alloc, instance) else {
        return println!(rt; "a toll-free walk of each commodity is wanted");
    };
    match count_all(alloc, instance, &spans, repeats.searches, repeats.checks) {
        Ok(sums) => println!(rt;
            "{} labels {} paths {} checked",
            sums.labels, sums.paths, sums.checked
        ),
        Err(_) => println!(rt; "too many labels"),
    }
}
