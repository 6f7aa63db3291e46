//! Times the check of a certificate. What it prints is the same on every run.
//!
//! The input is one line, `COMMODITIES TOLLS DEPTH EVIDENCE`. The instance has so many commodities, each beside a toll-free road
//! of its own, and so many toll roads that they share. The certificate is made line by line while it is checked: its tree has
//! all nodes down to the depth, and each node has a dual answer where EVIDENCE is `dual`, and else no answer. It prints both
//! values, or the first broken line.
#![tactic(auto)]

mod certificate;
mod roads;
mod tree;

use certificate::{Answer, judge};
use roads::Roads;
use std::io;
use tree::Size;

/// The family of roads and the tree of a line.
fn size_of(line: &str) -> Option<Size> {
    let mut words = line.split_whitespace();
    let commodities = words.next()?.parse::<u32>().ok()?;
    let tolls = words.next()?.parse::<u32>().ok()?;
    let depth = words.next()?.parse::<u32>().ok()?;
    let dual = words.next()? == "dual";
    if commodities > 100 || tolls > 10 || depth > 20 {
        return None;
    }
    let roads = Roads { commodities, tolls };
    Some(Size { roads, depth, dual })
}

fn main(rt: HostRuntime) -> io::Result<()> {
    let alloc = rt.alloc();
    let mut size = None;
    for line in rt.lines(alloc) {
        let line = line?;
        size = size_of(line.as_str());
    }
    let Some(size) = size else {
        return println!(rt; "commodities, tolls, a depth and the evidence are wanted");
    };
    match judge(alloc, size) {
        Answer::Accepted { lower, upper } => println!(rt; "accepted {lower} {upper}"),
        Answer::Broken(line) => println!(rt; "broken {line}"),
        Answer::NoInstance => println!(rt; "no instance"),
        Answer::Memory => println!(rt; "memory"),
    }
}
