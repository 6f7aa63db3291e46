//! Certificates that are accepted, and changes of them, each taken byte by byte and at once.

use crate::slow_shelf::SlowShelf;
use crate::texts::said;
use npp_fixtures::{
    THREE_PAIRS, THREE_PAIRS_CERTIFICATE, TWO_ROADS, TWO_ROADS_CERTIFICATE, instance_of, with_lines,
};
use npp_stream::check_file;
use std::alloc::Global;
use std::process::Abort;
use std::test::Fail;

/// Checks a text, of which a call of the shelf gives at most so many bytes.
fn expect_by(
    rt: &impl Abort,
    alloc: Global,
    instance: &str,
    text: &str,
    most: usize,
    answer: &str,
) -> Result<(), Fail> {
    let network = instance_of(alloc, instance)?;
    let mut shelf = SlowShelf::new(text.as_bytes(), most, u64::MAX);
    let found = check_file(alloc, &network, &mut shelf, "c");
    let text = said(alloc, found)?;
    assert_eq!(rt; text.as_str(), answer);
    Ok(())
}

/// The answer is the same whether the bytes come one by one, by threes, or all at once.
fn expect(
    rt: &impl Abort,
    alloc: Global,
    instance: &str,
    text: &str,
    answer: &str,
) -> Result<(), Fail> {
    expect_by(rt, alloc, instance, text, 1, answer)?;
    expect_by(rt, alloc, instance, text, 3, answer)?;
    expect_by(rt, alloc, instance, text, 65_536, answer)
}

/// The answer where other lines stand in place of those from `first` to `last` of the certificate over one toll.
fn expect_change(
    rt: &impl Abort,
    alloc: Global,
    first: usize,
    last: usize,
    lines: &str,
    answer: &str,
) -> Result<(), Fail> {
    let text = with_lines(alloc, TWO_ROADS_CERTIFICATE, first, last, lines)?;
    expect(rt, alloc, TWO_ROADS, text.as_str(), answer)
}

#[test]
fn certificates_are_accepted(rt: HostRuntime) -> Result<(), Fail> {
    let alloc = rt.alloc();
    expect(
        &rt,
        alloc,
        TWO_ROADS,
        TWO_ROADS_CERTIFICATE,
        "accepted 40 40",
    )?;
    expect(
        &rt,
        alloc,
        THREE_PAIRS,
        THREE_PAIRS_CERTIFICATE,
        "accepted 15 78/5",
    )
}

#[test]
fn changed_values_are_refused(rt: HostRuntime) -> Result<(), Fail> {
    let alloc = rt.alloc();
    expect_change(&rt, alloc, 2, 2, "status budget\n", "line 16 Status")?;
    expect_change(&rt, alloc, 4, 4, "lower 39\n", "line 13 Lower")?;
    expect_change(&rt, alloc, 5, 5, "upper 39\n", "line 16 Upper")?;
    expect_change(&rt, alloc, 6, 6, "opened 1\n", "line 16 Opened")?;
    expect_change(&rt, alloc, 7, 7, "toll 0 16/2\n", "line 7 Text")?;
    expect_change(&rt, alloc, 8, 8, "path 0 2 7 1\n", "line 8 Path")
}

#[test]
fn changed_lines_are_refused(rt: HostRuntime) -> Result<(), Fail> {
    let alloc = rt.alloc();
    expect_change(&rt, alloc, 7, 8, "toll 0 9\npath 0 2 9 1\n", "line 13 Path")?;
    expect_change(
        &rt,
        alloc,
        9,
        12,
        "cover 0 1\nstart\nfree 0\n",
        "line 11 Cover",
    )?;
    expect_change(
        &rt,
        alloc,
        15,
        15,
        "basic large\nsplit 0 0 1\nopen\nopen\n",
        "line 16 Split",
    )?;
    let text = with_lines(alloc, THREE_PAIRS_CERTIFICATE, 34, 34, "y link 0 2 8/5\n")?;
    expect(&rt, alloc, THREE_PAIRS, text.as_str(), "line 34 Evidence")
}

#[test]
fn the_end_is_where_it_must_be(rt: HostRuntime) -> Result<(), Fail> {
    let alloc = rt.alloc();
    expect(&rt, alloc, TWO_ROADS, "", "line 1 Order")?;
    expect_change(&rt, alloc, 16, 16, "", "line 16 Order")?;
    expect_change(&rt, alloc, 16, 16, "e", "line 16 Text")?;
    expect_change(&rt, alloc, 16, 16, "end", "line 16 Text")?;
    expect_change(&rt, alloc, 16, 16, "end\n\n", "line 17 Text")?;
    expect_change(&rt, alloc, 16, 16, "end\nopen\n", "line 17 Order")?;
    expect_change(&rt, alloc, 16, 16, "end\nopen", "line 17 Text")?;
    expect_change(&rt, alloc, 1, 1, "npp-certificate 1\r\n", "line 1 Text")
}

#[test]
fn a_second_certificate_is_refused(rt: HostRuntime) -> Result<(), Fail> {
    let alloc = rt.alloc();
    let text = format!(in alloc; "{TWO_ROADS_CERTIFICATE}{TWO_ROADS_CERTIFICATE}")?;
    expect(&rt, alloc, TWO_ROADS, text.as_str(), "line 17 Order")
}
