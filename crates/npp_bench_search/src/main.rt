//! Times branch and bound. What it prints is the same on every run.
//!
//! The first line of the input is `BUDGET WIDTH PICKER`, and the others are the text of an instance. It searches all useful paths of
//! the instance at 32, 64 or 128 bits with that budget, and the picker `best` or `depth`, and prints how the search ends, both
//! values, how many nodes are opened and how many there are.
#![tactic(auto)]

mod told;

use npp_bounds::free_and_zero;
use npp_frac::{Frac32, Frac64, Frac128};
use npp_labels::useful_all;
use npp_reader::{Document, read};
use std::alloc::Global;
use std::io;
use told::{Order, told};

/// What is asked for.
#[derive(Clone, Copy)]
struct Job {
    budget: u32,
    width: u32,
    order: Order,
}

/// The order of this name.
fn order_of(name: &str) -> Option<Order> {
    match name {
        "best" => Some(Order::BestBound),
        "depth" => Some(Order::Depth),
        _ => None,
    }
}

/// The budget, the width and the picker of a line.
fn job_of(line: &str) -> Option<Job> {
    let mut words = line.split_whitespace();
    let budget = words.next()?.parse::<u32>().ok()?;
    let width = words.next()?.parse::<u32>().ok()?;
    let order = order_of(words.next()?)?;
    Some(Job {
        budget,
        width,
        order,
    })
}

fn main(rt: HostRuntime) -> io::Result<()> {
    let alloc = rt.alloc();
    let mut job = None;
    let mut text = Vec::new(alloc);
    for line in rt.lines(alloc) {
        let line = line?;
        if job.is_none() {
            job = job_of(line.as_str());
        } else {
            text.extend_from_slice(line.as_bytes())?;
            text.push(b'\n')?;
        }
    }
    let Some(job) = job else {
        return println!(rt; "a budget, a width and a picker are wanted");
    };
    match read(alloc, &text) {
        Ok(document) => print_found(&rt, alloc, &document, job),
        Err(_) => println!(rt; "an instance is wanted"),
    }
}

/// Prints what a search finds.
fn print_found(rt: &impl Print, alloc: Global, document: &Document, job: Job) -> io::Result<()> {
    let instance = &document.instance;
    let Ok(spans) = free_and_zero(alloc, instance) else {
        return println!(rt; "a toll-free walk of each commodity is wanted");
    };
    let Ok(covers) = useful_all(alloc, instance, &spans) else {
        return println!(rt; "too many labels or paths");
    };
    let found = match job.width {
        32 => told::<Frac32>(alloc, instance, &covers, job.budget, job.order),
        64 => told::<Frac64>(alloc, instance, &covers, job.budget, job.order),
        _ => told::<Frac128>(alloc, instance, &covers, job.budget, job.order),
    };
    match found {
        Ok(found) => println!(rt; "{found}"),
        Err(_) => println!(rt; "no memory"),
    }
}
