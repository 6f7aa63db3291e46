//! Lines of certificates: what they say, how items are written, and what is no line.

use npp_cert_text::{MAX_LINE, print_line, read_line};
use npp_frac::{Exact, Frac128};
use npp_net::{ArcId, Memory};
use npp_rows::{Mark, RowName, Step};
use npp_tree::{Item, Status};
use std::alloc::Global;
use std::process::Abort;
use std::test::Fail;

/// A certificate of three toll roads whose root is opened: two values, the proof of the upper one, and two children.
const CERTIFICATE: [&str; 38] = [
    "npp-certificate 1",
    "status budget",
    "width 64",
    "lower 15",
    "upper 78/5",
    "opened 1",
    "toll 0 3",
    "path 0 2 3 1 0",
    "path 1 2 3 3 0",
    "path 2 2 3 5 0",
    "cover 0 3",
    "start",
    "step 0 1",
    "step 1 0",
    "free 2",
    "cover 1 3",
    "start",
    "step 0 3",
    "step 1 0",
    "free 4",
    "cover 2 3",
    "start",
    "step 0 5",
    "step 1 0",
    "free 6",
    "cuts 0",
    "tree",
    "dual 6",
    "y below 0 0 1",
    "y below 0 1 19/20",
    "y use 0 1 1/5",
    "y use 0 2 24/5",
    "y link 0 1 3/20",
    "y link 0 2 9/5",
    "split 2 1",
    "open",
    "open",
    "end",
];

/// A line of each form that the certificate has not, and the greatest numbers.
const OTHERS: [&str; 30] = [
    "npp-certificate 2",
    "status optimal",
    "status overflow",
    "width 32",
    "width 128",
    "lower 0",
    "lower -7/3",
    "toll 0 8",
    "instance 2 129 128 1",
    "limit 0 -",
    "limit 127 1000000000",
    "conflict 0 1 2 3 4",
    "pair 0 1 2 3 7",
    "round 5",
    "y cap 0 1",
    "y follow 0 1 2",
    "y one 3 1/2",
    "y onelow 3 1",
    "y cut 4 2/3",
    "basic large",
    "basic capped",
    "basic sum",
    "basic overflow 1 ratio 2 3",
    "basic overflow 1 pivot 4 5",
    "farkas 2",
    "inverse 1",
    "none 3",
    "leaf",
    "split 0 1 2 4294967295",
    "path 4294967295 18446744073709551615 170141183460469231731687303715884105727 4294967295",
];

/// Lines in no form: other spellings of numbers, numbers out of range, empty lists, other blanks, other words, a field too
/// few or too many.
const NO_LINES: [&str; 44] = [
    "toll 0 16/2",
    "toll 0 8/1",
    "toll 0 0/3",
    "toll 0 -0",
    "toll 0 +8",
    "toll 00 8",
    "toll +0 8",
    "toll 0 08",
    "toll 0 8/",
    "toll 0 /8",
    "toll 0 8/-3",
    "toll 0 1/2/3",
    "toll 0",
    "toll 0 8 8",
    "toll  0 8",
    "toll 0 8 ",
    " toll 0 8",
    "toll\t0 8",
    "toll 0 8\r",
    "toll 4294967296 8",
    "toll -1 8",
    "toll 0 170141183460469231731687303715884105728",
    "path 0 18446744073709551616 8 1",
    "path 0 2 8",
    "free",
    "split 0",
    "pair 0 1 2",
    "pair 0 1 2 3",
    "width 16",
    "width 064",
    "npp-certificate 3",
    "npp-certificate",
    "status done",
    "limit 0 +",
    "limit 0 --",
    "basic overflow 1 piv 4 5",
    "basic",
    "y row 0 1",
    "y cap 0",
    "End",
    "end ",
    "endless",
    "\u{e9}nd",
    "",
];

/// What is written for the item that a line says, or None where it says none.
fn again(alloc: Global, text: &[u8]) -> Result<Option<Vec<u8>>, Memory> {
    match read_line(alloc, text)? {
        Some(item) => Ok(Some(print_line(alloc, &item)?)),
        None => Ok(None),
    }
}

/// Expects that a line says an item whose line it is.
fn expect_line(rt: &impl Abort, alloc: Global, text: &str) -> Result<(), Fail> {
    match again(alloc, text.as_bytes())? {
        Some(written) => assert_eq!(rt; written.as_slice(), text.as_bytes()),
        None => assert!(rt; false, "{text} is a line"),
    }
    Ok(())
}

#[test]
fn lines_are_written_as_they_were_read(rt: HostRuntime) -> Result<(), Fail> {
    for text in CERTIFICATE {
        expect_line(&rt, rt.alloc(), text)?;
    }
    for text in OTHERS {
        expect_line(&rt, rt.alloc(), text)?;
    }
    Ok(())
}

#[test]
fn other_bytes_are_no_line(rt: HostRuntime) -> Result<(), Fail> {
    for text in NO_LINES {
        let said = again(rt.alloc(), text.as_bytes())?;
        assert!(rt; said.is_none(), "{text} is no line");
    }
    Ok(())
}

/// Whether a fraction is this quotient.
fn is(value: Frac128, num: i128, den: i128) -> bool {
    (value.num(), value.den()) == (num, den)
}

/// Whether the line of a report says what stands beside it.
fn says_report(item: &Item<Frac128>, place: usize) -> bool {
    match item {
        Item::HeaderTwo => place == 0,
        Item::StatusIs(status) => place == 1 && *status == Status::Overflow,
        Item::Width(bits) => place == 2 && *bits == 128,
        Item::Lower(value) => place == 3 && is(*value, -7, 3),
        Item::Upper(value) => place == 4 && is(*value, 15, 1),
        Item::Opened(nodes) => place == 5 && *nodes == 9,
        Item::InstanceIs {
            nodes,
            arcs,
            tolls,
            commodities,
        } => place == 6 && (*nodes, *arcs, *tolls, *commodities) == (2, 5, 3, 4),
        Item::Limit { toll, ceiling } => place == 7 && *toll == 1 && *ceiling == Some(20),
        Item::Toll { toll, value } => place == 8 && *toll == 2 && is(*value, 9, 5),
        Item::Path {
            commodity,
            cost,
            paid,
            arcs,
        } => {
            place == 9
                && (*commodity, *cost) == (3, 11)
                && is(*paid, 1, 2)
                && arcs.entries() == [ArcId(4), ArcId(0)].as_slice()
        }
        _ => false,
    }
}

/// Whether the line of the covers and the cuts says what stands beside it.
fn says_cover(item: &Item<Frac128>, place: usize) -> bool {
    match item {
        Item::Cover { commodity, labels } => place == 0 && (*commodity, *labels) == (1, 3),
        Item::Start => place == 1,
        Item::Step { parent, arc } => place == 2 && (*parent, arc.0) == (7, 8),
        Item::Free { arcs } => place == 3 && arcs.entries() == [ArcId(2)].as_slice(),
        Item::Cuts(cuts) => place == 4 && *cuts == 5,
        Item::Conflict { k, p, l, q, lines } => {
            place == 5 && (*k, *p, *l, *q, *lines) == (0, 1, 2, 3, 4)
        }
        Item::Pair { k, p, l, cuts } => {
            place == 6 && (*k, *p, *l) == (0, 1, 2) && cuts.entries() == [3, 7].as_slice()
        }
        Item::Round { lines } => place == 7 && *lines == 6,
        Item::Mult(y) => place == 8 && y.row == RowName::Link(1, 2) && is(y.value, 3, 20),
        _ => false,
    }
}

/// Whether the line of the tree says what stands beside it.
fn says_tree(item: &Item<Frac128>, place: usize) -> bool {
    match item {
        Item::Tree => place == 0,
        Item::Open => place == 1,
        Item::Basic(mark) => {
            let overflow = Mark::Overflow {
                pivot: 1,
                step: Step::Pivot,
                row: 4,
                column: 5,
            };
            place == 2 && *mark == overflow
        }
        Item::Dual(lines) => place == 3 && *lines == 6,
        Item::Farkas(lines) => place == 4 && *lines == 7,
        Item::Inverse(lines) => place == 5 && *lines == 8,
        Item::NoInverse(lines) => place == 6 && *lines == 9,
        Item::Leaf => place == 7,
        Item::Split { commodity, part } => {
            place == 8 && *commodity == 2 && part.entries() == [1, 3].as_slice()
        }
        Item::End => place == 9,
        _ => false,
    }
}

#[test]
fn what_the_lines_of_a_report_say(rt: HostRuntime) -> Result<(), Fail> {
    let lines = [
        "npp-certificate 2",
        "status overflow",
        "width 128",
        "lower -7/3",
        "upper 15",
        "opened 9",
        "instance 2 5 3 4",
        "limit 1 20",
        "toll 2 9/5",
        "path 3 11 1/2 4 0",
    ];
    for (place, text) in lines.iter().enumerate() {
        let item = read_line(rt.alloc(), text.as_bytes())?.ok_or("a line")?;
        assert!(rt; says_report(&item, place), "{text}");
    }
    Ok(())
}

#[test]
fn what_the_lines_of_covers_and_cuts_say(rt: HostRuntime) -> Result<(), Fail> {
    let lines = [
        "cover 1 3",
        "start",
        "step 7 8",
        "free 2",
        "cuts 5",
        "conflict 0 1 2 3 4",
        "pair 0 1 2 3 7",
        "round 6",
        "y link 1 2 3/20",
    ];
    for (place, text) in lines.iter().enumerate() {
        let item = read_line(rt.alloc(), text.as_bytes())?.ok_or("a line")?;
        assert!(rt; says_cover(&item, place), "{text}");
    }
    Ok(())
}

#[test]
fn what_the_lines_of_a_tree_say(rt: HostRuntime) -> Result<(), Fail> {
    let lines = [
        "tree",
        "open",
        "basic overflow 1 pivot 4 5",
        "dual 6",
        "farkas 7",
        "inverse 8",
        "none 9",
        "leaf",
        "split 2 1 3",
        "end",
    ];
    for (place, text) in lines.iter().enumerate() {
        let item = read_line(rt.alloc(), text.as_bytes())?.ok_or("a line")?;
        assert!(rt; says_tree(&item, place), "{text}");
    }
    Ok(())
}

#[test]
fn an_item_is_written(rt: HostRuntime) -> Result<(), Fail> {
    let item = Item::Toll {
        toll: 0,
        value: Frac128::of_whole(8),
    };
    let text = print_line(rt.alloc(), &item)?;
    assert_eq!(rt; text.as_slice(), b"toll 0 8".as_slice());
    Ok(())
}

/// A walk of so many arcs with number 0, the last of which has two digits where this is asked.
fn walk(alloc: Global, arcs: usize, wide: bool) -> Result<Vec<u8>, Fail> {
    let mut text = Vec::new(alloc);
    text.extend_from_slice(b"free")?;
    for _ in 1..arcs {
        text.extend_from_slice(b" 0")?;
    }
    text.extend_from_slice(if wide { b" 10" } else { b" 7" })?;
    Ok(text)
}

#[test]
fn a_line_has_at_most_65536_bytes(rt: HostRuntime) -> Result<(), Fail> {
    let alloc = rt.alloc();
    let longest = walk(alloc, 32_766, false)?;
    assert_eq!(rt; longest.len(), MAX_LINE);
    assert!(rt; again(alloc, &longest)?.is_some());
    let longer = walk(alloc, 32_766, true)?;
    assert_eq!(rt; longer.len(), MAX_LINE + 1);
    assert!(rt; again(alloc, &longer)?.is_none());
    Ok(())
}
