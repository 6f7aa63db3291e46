//! The program `npp`: it reads the system's files, and writes to standard output.
#![tactic(auto)]

use npp_cli::run;
use npp_outside::{FileShelf, StdSink};
use std::env;
use std::io::ErrorKind;
use std::process::ExitCode;

/// The status for want of memory.
const NO_MEMORY: u8 = 7;

fn main(rt: HostRuntime) -> ExitCode {
    let alloc = rt.alloc();
    let mut words = Vec::new(alloc);
    match env::args(&rt) {
        Ok(args) => {
            for word in args {
                if words.push(word).is_err() {
                    return ExitCode::from(NO_MEMORY);
                }
            }
        }
        Err(error) if error.kind() == ErrorKind::OutOfMemory => return ExitCode::from(NO_MEMORY),
        // Words that are not UTF-8 ask for no job, as no words do.
        Err(_) => {}
    }
    let mut shelf = FileShelf::new(&rt);
    let mut out = StdSink::new(&rt);
    ExitCode::from(run(alloc, &words, &mut shelf, &mut out))
}
