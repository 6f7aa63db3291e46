//! Times the work on the root of a search, stage by stage. What it prints is the same on every run.
//!
//! The first line of the input is `STAGE WIDTH REPEAT`, and the others are the text of an instance. The node allows all useful
//! paths, without cuts, and its work is done as often as REPEAT says. The stage `program` makes its relaxation and tells how large it
//! is, `run` makes it and runs the simplex and tells the pivots, `check` does so and checks the multipliers and tells their value,
//! `evidence` does all the work on the node and tells what is found, and `text` writes the relaxation, row by row. The stages `round`
//! and `rounds` check a derived row: a row of the first commodity, or the sum of one of each, rounded down.
#![tactic(auto)]

mod stages;
mod text;

use npp_fixtures::{covers_of, instance_of};
use npp_frac::{Frac32, Frac64, Frac128};
use stages::{Stage, told};
use std::alloc::Global;
use std::io;

/// What is asked for.
#[derive(Clone, Copy)]
struct Job {
    stage: Stage,
    width: u32,
    repeat: u32,
}

/// The stage of this name.
fn stage_of(name: &str) -> Option<Stage> {
    match name {
        "program" => Some(Stage::Program),
        "run" => Some(Stage::Run),
        "check" => Some(Stage::Check),
        "evidence" => Some(Stage::Evidence),
        "text" => Some(Stage::Text),
        "round" => Some(Stage::Round),
        "rounds" => Some(Stage::Rounds),
        _ => None,
    }
}

/// The stage, the width and the number of repeats of a line.
fn job_of(line: &str) -> Option<Job> {
    let mut words = line.split_whitespace();
    let stage = stage_of(words.next()?)?;
    let width = words.next()?.parse::<u32>().ok()?;
    let repeat = words.next()?.parse::<u32>().ok()?;
    Some(Job {
        stage,
        width,
        repeat,
    })
}

fn main(rt: HostRuntime) -> io::Result<()> {
    let alloc = rt.alloc();
    let mut job = None;
    let mut text = String::new(alloc);
    for line in rt.lines(alloc) {
        let line = line?;
        if job.is_none() {
            job = job_of(line.as_str());
        } else {
            text.push_str(line.as_str())?;
            text.push('\n')?;
        }
    }
    let Some(job) = job else {
        return println!(rt; "a stage, a width and how often are wanted");
    };
    match told_of(alloc, text.as_str(), job) {
        Some(told) => println!(rt; "{told}"),
        None => println!(rt; "an instance with useful covers is wanted, and memory"),
    }
}

/// What the stage tells of the root of the instance of a text.
fn told_of(alloc: Global, text: &str, job: Job) -> Option<String> {
    let net = instance_of(alloc, text).ok()?;
    let Ok(covers) = covers_of(alloc, &net) else {
        return None;
    };
    let told = match job.width {
        32 => told::<Frac32>(alloc, &net, &covers, job.stage, job.repeat),
        64 => told::<Frac64>(alloc, &net, &covers, job.stage, job.repeat),
        _ => told::<Frac128>(alloc, &net, &covers, job.stage, job.repeat),
    };
    told.ok()?
}
