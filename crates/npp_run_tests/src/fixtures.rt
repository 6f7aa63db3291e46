//! Instances and texts that several tests take.

ghost use Rattle.std.specs.Prelude.{None};

use npp_cli::run;
use npp_outside::{Shelf, ShelfAnswer, SureSink};
use std::alloc::Global;
use std::fmt::Write;
use std::process::Abort;
use std::test::Fail;

/// The two roads of `TWO_ROADS`, where the toll is at most 3.
pub const CEILING: &str = "npp 2\nnode a\nnode b\nfree a b 10\ntoll a b 2 3\npair a b 5\n";

/// Three toll arcs in a ring, of which each commodity may use two.
pub const RING: &str =
    "npp 1\nnode x\nnode y\nnode z\ntoll x y 0\ntoll y z 0\ntoll z x 0\nfree x z 1\nfree y x 1\nfree z y 1\npair x z 1\npair y x 1\npair z y 1\n";

/// What is written where the words are no job.
pub const USAGE: &str =
    "usage: npp solve FILE [--budget N] [--cuts N] [--numbers W] [--brief]\n       npp check FILE CERTIFICATE\n       npp bounds FILE\n       npp paths FILE\n       npp eval FILE TOLLS\n       npp gen NUMBER\n       npp demo NUMBER [--budget N] [--cuts N] [--numbers W]\n       npp upgrade FILE CERTIFICATE\n";

/// So many links in a row, each a toll-free arc of cost 1 beside a toll arc of cost 0.
pub fn chain(alloc: Global, links: u32) -> Result<String, Fail> {
    let mut text = String::from_str(alloc, "npp 1\nnode v0\n")?;
    for i in 0..links {
        let next = i + 1;
        writeln!(
            text,
            "node v{next}\nfree v{i} v{next} 1\ntoll v{i} v{next} 0"
        )?;
    }
    writeln!(text, "pair v0 v{links} 1")?;
    Ok(text)
}

/// The words of a line, behind the program's name.
pub fn words(alloc: Global, line: &str) -> Result<Vec<String>, Fail> {
    let mut words = Vec::new(alloc);
    words.push(String::from_str(alloc, "npp")?)?;
    for word in line.split(' ') {
        words.push(String::from_str(alloc, word)?)?;
    }
    Ok(words)
}

/// Holds an instance as `file` and other bytes under another name, gives one byte a call, and fails once it has given so
/// many of these.
#[derive(Drop)]
pub struct TwoFiles<'t> {
    /// The instance.
    pub instance: &'t str,
    /// The name of the other bytes.
    pub name: &'t str,
    /// The other bytes.
    pub bytes: &'t [u8],
    /// How many of these it gives before it fails.
    pub good: u64,
    /// How often it failed.
    pub faults: u64,
    /// How often it held no file of the name.
    pub misses: u64,
}

impl<'t> Shelf for TwoFiles<'t> {
    ghost held = { λ _. None };

    ghost faults = { λ shelf. shelf.faults };

    ghost misses = { λ shelf. shelf.misses };

    fn piece(&mut self, name: &str, at: u64, into: &mut [u8]) -> Result<usize, ShelfAnswer> {
        let is_other = name == self.name;
        if is_other && at >= self.good {
            self.faults = self.faults.saturating_add(1);
            return Err(ShelfAnswer::Failed);
        }
        if name != "file" && !is_other {
            self.misses = self.misses.saturating_add(1);
            return Err(ShelfAnswer::Missing);
        }
        let bytes = if is_other {
            self.bytes
        } else {
            self.instance.as_bytes()
        };
        if at >= bytes.len() as u64 || into.is_empty() {
            return Ok(0);
        }
        into[0] = bytes[at as usize];
        Ok(1)
    }
}

/// A run on these words: its status and what is written are these.
pub fn expect_run(
    rt: &impl Abort,
    alloc: Global,
    line: &str,
    mut shelf: TwoFiles<'_>,
    status: u8,
    written: &str,
) -> Result<(), Fail> {
    let mut out = SureSink::new(alloc);
    let words = words(alloc, line)?;
    assert_eq!(rt; run(alloc, &words, &mut shelf, &mut out), status);
    assert_eq!(rt; out.written(), written.as_bytes());
    Ok(())
}

/// These two files, and no failure.
pub fn two_files<'t>(instance: &'t str, name: &'t str, bytes: &'t [u8]) -> TwoFiles<'t> {
    TwoFiles {
        instance,
        name,
        bytes,
        good: u64::MAX,
        faults: 0,
        misses: 0,
    }
}
