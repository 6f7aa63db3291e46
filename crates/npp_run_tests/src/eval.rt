//! Runs of `eval`, on an instance and a tolls text.

use crate::fixtures::{RING, TwoFiles, USAGE, chain, two_files};
use npp_cli::run;
use npp_fixtures::THREE_PAIRS;
use npp_outside::SureSink;
use std::alloc::Global;
use std::fmt::Write;
use std::process::Abort;
use std::test::Fail;

const TWO_TOLLS: &str = "npp 1\nnode a\nnode b\nfree a b 10\ntoll a b 2\ntoll a b 4\npair a b 1\n";

const TOLLS_ONLY: &str = "npp 1\nnode a\nnode b\ntoll a b 1\npair a b 1\n";

// An instance as `file`, and a tolls text as `tolls`.
fn with_tolls<'t>(instance: &'t str, tolls: &'t str) -> TwoFiles<'t> {
    two_files(instance, "tolls", tolls.as_bytes())
}

// A run of these words, after the program's name, over these files: its status and what is written are these.
fn expect_words(
    rt: &impl Abort,
    alloc: Global,
    spoken: &[&str],
    mut shelf: TwoFiles<'_>,
    status: u8,
    written: &str,
) -> Result<(), Fail> {
    let mut words = Vec::new(alloc);
    words.push(String::from_str(alloc, "npp")?)?;
    for word in spoken {
        words.push(String::from_str(alloc, *word)?)?;
    }
    let mut out = SureSink::new(alloc);
    assert_eq!(rt; run(alloc, &words, &mut shelf, &mut out), status);
    assert_eq!(rt; out.written(), written.as_bytes());
    Ok(())
}

// What the tolls earn: the status and what is written are these.
fn expect(
    rt: &impl Abort,
    alloc: Global,
    instance: &str,
    tolls: &str,
    status: u8,
    written: &str,
) -> Result<(), Fail> {
    let words = ["eval", "file", "tolls"];
    expect_words(
        rt,
        alloc,
        &words,
        with_tolls(instance, tolls),
        status,
        written,
    )
}

const SAME_COST: &str = "npp 1\nnode a\nnode b\nfree a b 10\ntoll a b 2\ntoll a b 2\npair a b 4\n";

const CYCLE: &str =
    "npp 1\nnode a\nnode b\nnode c\nfree a b 10\ntoll a b 2\nfree a c 0\ntoll c a 0\npair a b 5\n";

const NO_TOLLS: &str = "npp 1\nnode a\nnode b\nfree a b 4\npair a b 1\n";

const REPLIES_ROWS: &[(&str, &str, &str)] = &[
    (
        TWO_TOLLS,
        "toll 0 8\ntoll 1 5\n",
        "revenue 5\npath 0 4 5 2\n",
    ),
    (
        TWO_TOLLS,
        "toll 0 8\ntoll 1 6\n",
        "revenue 8\npath 0 2 8 1\n",
    ),
    (
        TWO_TOLLS,
        "toll 0 1/2\ntoll 1 0\n",
        "revenue 1/2\npath 0 2 1/2 1\n",
    ),
    (
        TWO_TOLLS,
        "toll 0 9\ntoll 1 7\n",
        "revenue 0\npath 0 10 0 0\n",
    ),
    (
        SAME_COST,
        "toll 0 3\ntoll 1 3\n",
        "revenue 12\npath 0 2 3 1\n",
    ),
    (
        SAME_COST,
        "toll 0 4\ntoll 1 3\n",
        "revenue 12\npath 0 2 3 2\n",
    ),
    (CYCLE, "toll 0 8\ntoll 1 0\n", "revenue 40\npath 0 2 8 1\n"),
    (CYCLE, "toll 0 8\ntoll 1 1\n", "revenue 40\npath 0 2 8 1\n"),
    (NO_TOLLS, "", "revenue 0\npath 0 4 0 0\n"),
    (
        THREE_PAIRS,
        "toll 0 3\n",
        "revenue 15\npath 0 2 3 1 0\npath 1 2 3 3 0\npath 2 2 3 5 0\n",
    ),
    (
        THREE_PAIRS,
        "toll 0 6\n",
        "revenue 12\npath 0 2 6 1 0\npath 1 2 6 3 0\npath 2 5 0 6\n",
    ),
    (
        THREE_PAIRS,
        "toll 0 13/2\n",
        "revenue 13/2\npath 0 2 13/2 1 0\npath 1 8 0 4\npath 2 5 0 6\n",
    ),
    (
        RING,
        "toll 0 1/2\ntoll 1 1/2\ntoll 2 1/2\n",
        "revenue 3\npath 0 0 1 0 1\npath 1 0 1 1 2\npath 2 0 1 2 0\n",
    ),
    (
        RING,
        "toll 0 1\ntoll 1 0\ntoll 2 0\n",
        "revenue 2\npath 0 0 1 0 1\npath 1 0 0 1 2\npath 2 0 1 2 0\n",
    ),
];

// Ties are for the leader, and then for the path of the least number.
#[test]
fn replies(rt: HostRuntime) -> Result<(), Fail> {
    for row in REPLIES_ROWS {
        let (instance, lines, written) = *row;
        let tolls = format!(in rt.alloc(); "npp-tolls 1\n{lines}")?;
        expect(&rt, rt.alloc(), instance, tolls.as_str(), 0, written)?;
    }
    Ok(())
}

const REFUSED_LINES_ROWS: &[(&str, u32)] = &[
    ("", 1),
    ("npp-tolls 1", 1),
    ("npp-tolls 2\ntoll 0 8\ntoll 1 5\n", 1),
    ("npp-tolls 1\r\ntoll 0 8\ntoll 1 5\n", 1),
    ("npp-tolls  1\ntoll 0 8\ntoll 1 5\n", 1),
    ("\nnpp-tolls 1\ntoll 0 8\ntoll 1 5\n", 1),
    ("npp-tolls 1\n", 2),
    ("npp-tolls 1\ntoll 0 8", 2),
    ("npp-tolls 1\ntoll 0 16/2\ntoll 1 5\n", 2),
    ("npp-tolls 1\ntoll 0 8/1\ntoll 1 5\n", 2),
    ("npp-tolls 1\ntoll 0 -1\ntoll 1 5\n", 2),
    ("npp-tolls 1\ntoll 0 -0\ntoll 1 5\n", 2),
    ("npp-tolls 1\ntoll 0 +8\ntoll 1 5\n", 2),
    ("npp-tolls 1\ntoll 0 08\ntoll 1 5\n", 2),
    ("npp-tolls 1\ntoll 0 8.5\ntoll 1 5\n", 2),
    ("npp-tolls 1\ntoll 00 8\ntoll 1 5\n", 2),
    ("npp-tolls 1\ntoll 0  8\ntoll 1 5\n", 2),
    ("npp-tolls 1\ntoll 0 8 \ntoll 1 5\n", 2),
    ("npp-tolls 1\n\ntoll 0 8\ntoll 1 5\n", 2),
    ("npp-tolls 1\ntoll 1 5\ntoll 0 8\n", 2),
    (
        "npp-tolls 1\ntoll 0 170141183460469231731687303715884105728\ntoll 1 5\n",
        2,
    ),
    ("npp-tolls 1\ntoll 0 8\n", 3),
    ("npp-tolls 1\ntoll 0 8\ntoll 1 5", 3),
    ("npp-tolls 1\ntoll 0 8\ntoll 0 5\n", 3),
    ("npp-tolls 1\ntoll 0 8\ntoll 2 5\n", 3),
    ("npp-tolls 1\ntoll 0 8\ntoll 1 5\n\n", 4),
    ("npp-tolls 1\ntoll 0 8\ntoll 1 5\nx", 4),
    ("npp-tolls 1\ntoll 0 8\ntoll 1 5\ntoll 2 0\n", 4),
];

// Each text has a line that may not stand where it does.
#[test]
fn refused_lines(rt: HostRuntime) -> Result<(), Fail> {
    for row in REFUSED_LINES_ROWS {
        let (tolls, line) = *row;
        let written = format!(in rt.alloc(); "refused tolls line {line}\n")?;
        expect(&rt, rt.alloc(), TWO_TOLLS, tolls, 9, written.as_str())?;
    }
    Ok(())
}

const REFUSED: &str = "refused tolls line 2\n";

const FREE: &str = "revenue 0\npath 0 10 0 0\n";

const CEILINGS_ROWS: &[(&str, &str, u8, &str)] = &[
    ("3", "3", 0, "revenue 15\npath 0 2 3 1\n"),
    ("3", "5/2", 0, "revenue 25/2\npath 0 2 5/2 1\n"),
    ("3", "4", 9, REFUSED),
    ("3", "7/2", 9, REFUSED),
    ("20", "8", 0, "revenue 40\npath 0 2 8 1\n"),
    ("20", "20", 0, FREE),
    ("20", "21", 9, REFUSED),
    ("-", "21", 0, FREE),
    ("0", "0", 0, "revenue 0\npath 0 2 0 1\n"),
    ("0", "1/2", 9, REFUSED),
];

// A toll may be as great as its ceiling, and no greater.
#[test]
fn ceilings(rt: HostRuntime) -> Result<(), Fail> {
    for row in CEILINGS_ROWS {
        let (ceiling, toll, status, written) = *row;
        let instance = format!(in rt.alloc();
            "npp 2\nnode a\nnode b\nfree a b 10\ntoll a b 2 {ceiling}\npair a b 5\n"
        )?;
        let tolls = format!(in rt.alloc(); "npp-tolls 1\ntoll 0 {toll}\n")?;
        expect(
            &rt,
            rt.alloc(),
            instance.as_str(),
            tolls.as_str(),
            status,
            written,
        )?;
    }
    Ok(())
}

const MOST: &str = "170141183460469231731687303715884105727";

const COST_0: &str = "npp 1\nnode a\nnode b\nfree a b 10\ntoll a b 0\npair a b 5\n";

const SECOND: &str =
    "npp 1\nnode a\nnode b\nnode c\nnode d\nfree a b 1\nfree c d 10\ntoll c d 1\npair a b 1\npair c d 1\n";

const BOTH: &str =
    "npp 1\nnode a\nnode b\nnode c\nnode d\nfree a b 10\ntoll a b 0\nfree c d 10\ntoll c d 0\npair a b 5\npair c d 1\n";

const NUMBERS_THAT_DO_NOT_FIT_ROWS: &[(&str, &str, &str, u8, &str)] = &[
    (TWO_TOLLS, MOST, "toll 1 5\n", 8, "refused overflow 0\n"),
    (SECOND, MOST, "", 8, "refused overflow 1\n"),
    (COST_0, MOST, "", 0, "revenue 0\npath 0 10 0 0\n"),
    (
        COST_0,
        "1/170141183460469231731687303715884105727",
        "",
        0,
        "revenue 5/170141183460469231731687303715884105727\npath 0 0 1/170141183460469231731687303715884105727 1\n",
    ),
    (
        BOTH,
        "1/170141183460469231731687303715884105727",
        "toll 1 1\n",
        8,
        "refused overflow 1\n",
    ),
];

// The greatest number of 128 bits is 2^127 - 1. With 0 each sum fits, and by its number each product with a whole one.
#[test]
fn numbers_that_do_not_fit(rt: HostRuntime) -> Result<(), Fail> {
    for row in NUMBERS_THAT_DO_NOT_FIT_ROWS {
        let (instance, toll, rest, status, written) = *row;
        let tolls = format!(in rt.alloc(); "npp-tolls 1\ntoll 0 {toll}\n{rest}")?;
        expect(&rt, rt.alloc(), instance, tolls.as_str(), status, written)?;
    }
    Ok(())
}

// A tolls text in which each of so many toll arcs has this toll.
fn equal_tolls(alloc: Global, count: u32, toll: &str) -> Result<String, Fail> {
    let mut text = String::from_str(alloc, "npp-tolls 1\n")?;
    for number in 0..count {
        writeln!(text, "toll {number} {toll}")?;
    }
    Ok(text)
}

const OVER_A_LIMIT_MOST: &str = "170141183460469231731687303715884105727";

const OVER_A_LIMIT_ROWS: &[(u32, &str, u8, &str)] = &[
    (11, "1", 11, "refused too-many-paths 0\n"),
    (11, OVER_A_LIMIT_MOST, 11, "refused too-many-paths 0\n"),
    (11, "-1", 9, "refused tolls line 2\n"),
];

// 11 links have 2,048 useful paths. A limit is judged after the tolls, and before numbers.
#[test]
fn over_a_limit(rt: HostRuntime) -> Result<(), Fail> {
    for row in OVER_A_LIMIT_ROWS {
        let (links, toll, status, written) = *row;
        let instance = chain(rt.alloc(), links)?;
        let tolls = equal_tolls(rt.alloc(), links, toll)?;
        expect(
            &rt,
            rt.alloc(),
            instance.as_str(),
            tolls.as_str(),
            status,
            written,
        )?;
    }
    Ok(())
}

// Under these tolls each of the 128 toll arcs is as dear as the toll-free one, and the first pays the most.
#[test]
fn as_many_toll_arcs_as_there_may_be(rt: HostRuntime) -> Result<(), Fail> {
    let alloc = rt.alloc();
    let mut instance = String::from_str(alloc, "npp 1\nnode a\nnode b\nfree a b 200\n")?;
    let mut tolls = String::from_str(alloc, "npp-tolls 1\n")?;
    for cost in 0..128_u32 {
        writeln!(instance, "toll a b {cost}")?;
        writeln!(tolls, "toll {cost} {}", 200_u32.saturating_sub(cost))?;
    }
    writeln!(instance, "pair a b 1")?;
    let written = "revenue 200\npath 0 0 200 1\n";
    expect(&rt, alloc, instance.as_str(), tolls.as_str(), 0, written)
}

const GOOD: &str = "npp-tolls 1\ntoll 0 3\n";

const SHORT: &str = "npp-tolls 1\n";

const NO_PAIR: &str = "refused instance line 2 NoCommodity\n";

const ORDER_OF_REFUSALS_ROWS: &[(&str, &str, &str, &str, &str, u8, &str)] = &[
    ("eval", "none", "tolls", "", GOOD, 4, "missing none\n"),
    (
        "eval",
        "file",
        "none",
        TOLLS_ONLY,
        GOOD,
        4,
        "missing none\n",
    ),
    ("eval", "file", "none", "npp 1\n", GOOD, 3, NO_PAIR),
    (
        "eval",
        "file",
        "tolls",
        TOLLS_ONLY,
        SHORT,
        9,
        "refused tolls line 2\n",
    ),
    (
        "eval",
        "file",
        "tolls",
        TOLLS_ONLY,
        GOOD,
        10,
        "refused no-free-path 0\n",
    ),
    ("eval", "-x", "tolls", TOLLS_ONLY, GOOD, 2, USAGE),
    ("eval", "file", "--tolls", TOLLS_ONLY, GOOD, 2, USAGE),
    ("price", "file", "tolls", TOLLS_ONLY, GOOD, 2, USAGE),
    ("solve", "file", "tolls", TOLLS_ONLY, GOOD, 2, USAGE),
];

// The first cause is named: the instance before the tolls, these before what the instance lacks.
#[test]
fn order_of_refusals(rt: HostRuntime) -> Result<(), Fail> {
    for row in ORDER_OF_REFUSALS_ROWS {
        let (job, first, second, instance, tolls, status, written) = *row;
        let words = [job, first, second];
        let files = with_tolls(instance, tolls);
        expect_words(&rt, rt.alloc(), &words, files, status, written)?;
    }
    Ok(())
}

// `eval` asks for two words and no more.
#[test]
fn too_few_and_too_many_words(rt: HostRuntime) -> Result<(), Fail> {
    let few = ["eval", "file"];
    expect_words(&rt, rt.alloc(), &few, with_tolls(TOLLS_ONLY, ""), 2, USAGE)?;
    let many = ["eval", "file", "tolls", "tolls"];
    expect_words(&rt, rt.alloc(), &many, with_tolls(TOLLS_ONLY, ""), 2, USAGE)
}

#[test]
fn a_shelf_that_fails_at_the_tolls(rt: HostRuntime) -> Result<(), Fail> {
    let mut shelf = with_tolls(TOLLS_ONLY, "");
    shelf.good = 0;
    let words = ["eval", "file", "tolls"];
    expect_words(&rt, rt.alloc(), &words, shelf, 5, "shelf fault tolls\n")
}

// A tolls file may have 65,536 bytes.
#[test]
fn long_tolls(rt: HostRuntime) -> Result<(), Fail> {
    let alloc = rt.alloc();
    let mut text = String::new(alloc);
    for _ in 0..65_536_u32 {
        text.push_str("#")?;
    }
    expect(
        &rt,
        alloc,
        TWO_TOLLS,
        text.as_str(),
        9,
        "refused tolls line 1\n",
    )?;
    text.push_str("#")?;
    expect(
        &rt,
        alloc,
        TWO_TOLLS,
        text.as_str(),
        12,
        "refused too-long tolls\n",
    )
}
