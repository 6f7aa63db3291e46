//! Worked examples.

use npp_net::NodeId;
use npp_reader::{Document, LineKind, Names, print, read};
use std::alloc::{AllocError, Global};
use std::process::Abort;
use std::test::Fail;

const SMALL: &str = "npp 1\nnode a\nnode b\nfree a b 10\ntoll a b 2\npair a b 5\n";

const CEILING: &str = "npp 2\nnode a\nnode b\nfree a b 10\ntoll a b 2 3\npair a b 5\n";

/// What reading a text gives: its canonical text, or its first faulty line.
fn answer(alloc: Global, bytes: &[u8]) -> Result<String, AllocError> {
    match read(alloc, bytes) {
        Ok(document) => canonical(alloc, &document),
        Err(refusal) => format!(in alloc; "{refusal}"),
    }
}

fn canonical(alloc: Global, document: &Document) -> Result<String, AllocError> {
    if document.names.len() != document.instance.nodes() as usize {
        return format!(in alloc; "names");
    }
    match print(alloc, document) {
        Ok(text) => Ok(text),
        Err(_) => Err(AllocError),
    }
}

fn expect_answer(
    rt: &impl Abort,
    alloc: Global,
    bytes: &[u8],
    want: &str,
) -> Result<(), AllocError> {
    let got = answer(alloc, bytes)?;
    assert_eq!(rt; got.as_str(), want);
    Ok(())
}

/// Texts, with their canonical texts or their first faulty lines.
const TEXTS: &[(&str, &str)] = &[
    (SMALL, SMALL),
    (
        "# a remark\r\n\r\n \tnpp\t 1 \r\nnode a\r\n  # node c\r\nnode  b\r\nfree a b 0010\r\ntoll a b 2\r\n\npair a b 5",
        SMALL,
    ),
    ("", "line 1: Header"),
    ("\n# npp 1\n", "line 3: Header"),
    ("npp 3\n", "line 1: Header"),
    ("npp 1\nnode a\nnode a\n", "line 3: RepeatedNode"),
    (
        "npp 1\nnode a\nnode b\nfree a b 1000001\n",
        "line 4: NumberTooLarge",
    ),
    (
        "npp 1\nnode a\nnode b\nfree a c 10\n",
        "line 4: UnknownNode",
    ),
    ("npp 1\nnode a\nnode b\npair a b 0\n", "line 4: ZeroDemand"),
    ("npp 1\nnode a\nnode b\npair a a 5\n", "line 4: SameEnds"),
    (
        "npp 1\nnode a\nnode b\nfree a b 10\ntoll a b 2\n",
        "line 6: NoCommodity",
    ),
    ("npp 1\nedge a b 1\n", "line 2: UnknownWord"),
    ("npp 1\nnode a b\n", "line 2: FieldCount"),
    ("npp 1\nfree a+ b 1x\n", "line 2: BadName"),
    ("npp 1\nfree a b 1x\n", "line 2: BadNumber"),
    ("npp 1\nfree a b 0000000000000000001\n", "line 2: BadNumber"),
    ("npp 1\nnode \0\n", "line 2: BadName"),
    (
        "npp 1\nnode a\nnode b\ntoll a b 2 -\n",
        "line 4: FieldCount",
    ),
];

#[test]
fn reads_and_refuses(rt: HostRuntime) -> Result<(), Fail> {
    for (text, want) in TEXTS {
        expect_answer(&rt, rt.alloc(), text.as_bytes(), want)?;
    }
    expect_answer(&rt, rt.alloc(), b"# \xff\n", "line 1: Utf8")?;
    Ok(())
}

/// The text of `CEILING` with another line for the toll arc.
fn with_toll(alloc: Global, line: &str) -> Result<String, AllocError> {
    format!(in alloc; "npp 2\nnode a\nnode b\nfree a b 10\n{line}\npair a b 5\n")
}

/// Two toll arcs, of which the second has no ceiling.
const TWO_CEILINGS: &str =
    "npp 2\nnode a\nnode b\nfree a b 10\ntoll a b 2 3\ntoll a b 4 -\npair a b 5\n";

/// Lines in the place of the toll arc of `CEILING`.
const TOLL_LINES: &[(&str, &str)] = &[
    ("toll a b 2 3", CEILING),
    ("toll a b 2 3\ntoll a b 4 -", TWO_CEILINGS),
    ("toll a b 2 -", SMALL),
    ("toll a b 2 003", CEILING),
    ("toll a b 2", "line 5: FieldCount"),
    ("toll a b 2 3 4", "line 5: FieldCount"),
    ("toll a b 2 x", "line 5: BadNumber"),
    ("toll a b 2 --", "line 5: BadNumber"),
    ("toll a b 2 1000000001", "line 5: NumberTooLarge"),
    ("toll a b 1000001 x", "line 5: BadNumber"),
    ("toll a c 2 1000000001", "line 5: NumberTooLarge"),
    ("free a b 2 3", "line 5: FieldCount"),
];

#[test]
fn reads_ceilings(rt: HostRuntime) -> Result<(), Fail> {
    let alloc = rt.alloc();
    for (line, want) in TOLL_LINES {
        let text = with_toll(alloc, line)?;
        expect_answer(&rt, alloc, text.as_bytes(), want)?;
    }
    let document = read(alloc, CEILING.as_bytes())?;
    let last = document.instance.arcs().last();
    assert_eq!(rt; last.map(|x| x.ceiling), Some(Some(3)));
    Ok(())
}

/// The header and so many nodes.
fn many_nodes(alloc: Global, count: u32) -> Result<String, AllocError> {
    let mut text = String::from_str(alloc, "npp 1\n")?;
    for number in 0..count {
        write!(text, "node {number}\n")?;
    }
    Ok(text)
}

/// The header, two nodes and so many equal lines.
fn many_lines(alloc: Global, line: &str, count: u32) -> Result<String, AllocError> {
    let mut text = many_nodes(alloc, 2)?;
    for _ in 0..count {
        text.push_str(line)?;
    }
    Ok(text)
}

/// A line of 4,194,304 bytes.
fn long_line(alloc: Global) -> Result<String, AllocError> {
    let mut text = String::from_str(alloc, "x")?;
    for _ in 0..22 {
        let copy = text.clone()?;
        text.push_str(copy.as_str())?;
    }
    Ok(text)
}

/// The header and so many nodes.
const NODE_COUNTS: &[(u32, &str)] = &[
    (1000, "line 1002: NoCommodity"),
    (1001, "line 1002: TooManyNodes"),
];

/// The header, two nodes and so many equal lines.
const LINE_COUNTS: &[(&str, u32, &str)] = &[
    ("free 0 1 7\n", 5001, "line 5004: TooManyArcs"),
    ("toll 0 1 7\n", 128, "line 132: NoCommodity"),
    ("toll 0 1 7\n", 129, "line 132: TooManyTolls"),
    ("pair 0 1 7\n", 101, "line 104: TooManyCommodities"),
];

#[test]
fn refuses_past_the_limits(rt: HostRuntime) -> Result<(), Fail> {
    let alloc = rt.alloc();
    for (count, want) in NODE_COUNTS {
        let text = many_nodes(alloc, *count)?;
        expect_answer(&rt, alloc, text.as_bytes(), want)?;
    }
    for (line, count, want) in LINE_COUNTS {
        let text = many_lines(alloc, line, *count)?;
        expect_answer(&rt, alloc, text.as_bytes(), want)?;
    }
    let text = long_line(alloc)?;
    expect_answer(&rt, alloc, text.as_bytes(), "line 1: Header")?;
    Ok(())
}

#[test]
fn takes_names(rt: HostRuntime) -> Result<(), Fail> {
    let alloc = rt.alloc();
    let mut texts = Vec::new(alloc);
    texts.push(String::from_str(alloc, "a")?)?;
    texts.push(String::from_str(alloc, "b-2")?)?;
    let names = Names::new(alloc, texts)?;
    assert_eq!(rt; (names.len(), names.is_empty()), (2, false));
    assert_eq!(rt; names.name(NodeId(1)), "b-2");
    let found = [names.find("b-2"), names.find("c")];
    assert_eq!(rt; found, [Some(NodeId(1)), None]);
    Ok(())
}

#[test]
fn names_kinds(rt: HostRuntime) {
    assert_eq!(rt; LineKind::TooManyCommodities.word(), "TooManyCommodities");
}
