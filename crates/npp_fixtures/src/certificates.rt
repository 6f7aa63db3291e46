//! Two small instances with a certificate of each, and texts with other lines.

use std::alloc::{AllocError, Global};

/// A toll-free arc of cost 10 and a toll arc of cost 2 beside it, for a demand of 5.
pub const TWO_ROADS: &str = "npp 1
node a
node b
free a b 10
toll a b 2
pair a b 5
";

/// A certificate of these roads: the basic bound is what is earned, and the root is not opened.
pub const TWO_ROADS_CERTIFICATE: &str = "npp-certificate 1
status optimal
width 64
lower 40
upper 40
opened 0
toll 0 8
path 0 2 8 1
cover 0 2
start
step 0 1
free 0
cuts 0
tree
open
end
";

/// Three commodities share a toll arc of cost 2, each beside a toll-free arc of its own, of costs 10, 8 and 5.
pub const THREE_PAIRS: &str = "npp 1
node a
node b
node p
node q
node r
toll a b 2
free p a 0
free p b 10
free q a 0
free q b 8
free r a 0
free r b 5
pair p b 1
pair q b 1
pair r b 3
";

/// A certificate of these: a toll of 3 earns 15, and a dual answer of the root's relaxation proves 78/5.
pub const THREE_PAIRS_CERTIFICATE: &str = "npp-certificate 1
status budget
width 64
lower 15
upper 78/5
opened 1
toll 0 3
path 0 2 3 1 0
path 1 2 3 3 0
path 2 2 3 5 0
cover 0 3
start
step 0 1
step 1 0
free 2
cover 1 3
start
step 0 3
step 1 0
free 4
cover 2 3
start
step 0 5
step 1 0
free 6
cuts 0
tree
dual 6
y below 0 0 1
y below 0 1 19/20
y use 0 1 1/5
y use 0 2 24/5
y link 0 1 3/20
y link 0 2 9/5
split 2 1
open
open
end
";

/// The text with other lines in place of those from `first` to `last`, numbered from 1. The text's own last line gets its line
/// feed; the lines in their place are taken as they are.
pub fn with_lines(
    alloc: Global,
    text: &str,
    first: usize,
    last: usize,
    lines: &str,
) -> Result<String, AllocError> {
    let mut changed = String::new(alloc);
    for (number, line) in (1..usize::MAX).zip(text.lines()) {
        if number == first {
            changed.push_str(lines)?;
        }
        if number < first || last < number {
            changed.push_str(line)?;
            changed.push('\n')?;
        }
    }
    Ok(changed)
}
