//! Runs on one file, and on a shelf and a sink that fail.
ghost use Rattle.std.specs.Prelude.{None};

use crate::fixtures::{RING, USAGE, chain, words};
use npp_cli::run;
use npp_fixtures::{THREE_PAIRS, TWO_ROADS, TWO_ROADS_CERTIFICATE};
use npp_outside::{Shelf, ShelfAnswer, Sink, SinkAnswer, SureShelf, SureSink};
use std::alloc::Global;
use std::fmt::Write;
use std::process::Abort;
use std::test::Fail;

const TWO_ROADS_WITH_BLANKS: &str =
    "# two roads\r\nnpp 1\r\n\r\nnode a\r\n node\tb\r\nfree a b 10\r\ntoll a b 2\r\n\r\npair a b 5";

const TWO_PAIRS: &str =
    "npp 1\nnode a\nnode b\nnode p\nnode q\ntoll a b 2\nfree p a 0\nfree p b 10\nfree q a 0\nfree q b 5\npair p b 1\npair q b 3\n";

const TWO_ROADS_REPORT: &str =
    "npp-certificate 1\nstatus optimal\nwidth 64\nlower 40\nupper 40\nopened 0\ntoll 0 8\npath 0 2 8 1\n";

// At toll 1 all of the first two pairs pay, at toll 2 only the second pair, and the third pays up to 1,500,000.
const STEEP_PAIRS: &str =
    "npp 1\nnode a\nnode b\nnode o\nnode d\nnode p\nnode q\ntoll a b 0\nfree o a 0\nfree o d 1000000\nfree d b 500000\nfree p a 0\nfree p b 1\nfree q a 0\nfree q b 2\npair p b 1000000\npair q b 900000\npair o b 1\n";

const NEEDLESS_TOLL: &str =
    "npp 1\nnode a\nnode m\nnode b\nfree a b 10\ntoll a m 1\nfree m b 1\ntoll m b 1\npair a b 1\n";

const CYCLES: &str =
    "npp 1\nnode a\nnode b\nnode c\nnode d\ntoll b d 1\nfree a b 10\ntoll a b 2\ntoll a b 2\ntoll a b 4\nfree a a 0\ntoll a a 0\nfree a c 0\nfree c a 0\ntoll c a 0\ntoll c b 1\nfree a d 9\npair a b 5\npair c d 1\n";

// Gives one byte a call of its only file, which every name finds, and fails from the call after `most` bytes on.
#[derive(Drop)]
struct Slow {
    text: &'static str,
    most: u64,
    faults: u64,
}

impl Shelf for Slow {
    ghost held = { λ _. None };

    ghost faults = { λ shelf. shelf.faults };

    ghost misses = { λ _. 0 };

    fn piece(&mut self, _name: &str, at: u64, into: &mut [u8]) -> Result<usize, ShelfAnswer> {
        if at >= self.most {
            self.faults = self.faults.saturating_add(1);
            return Err(ShelfAnswer::Failed);
        }
        let bytes = self.text.as_bytes();
        if at >= bytes.len() as u64 || into.is_empty() {
            return Ok(0);
        }
        into[0] = bytes[at as usize];
        Ok(1)
    }
}

// Fails at its first call.
#[derive(Drop)]
struct Broken {
    faults: u64,
}

impl Sink for Broken {
    ghost written = { λ _. None };

    ghost faults = { λ sink. sink.faults };

    fn write(&mut self, _bytes: &[u8]) -> Result<usize, SinkAnswer> {
        self.faults = self.faults.saturating_add(1);
        Err(SinkAnswer::Failed)
    }
}

// A run of these words over one file of this text: its status and what is written are these.
fn expect(
    rt: &impl Abort,
    alloc: Global,
    line: &str,
    text: &[u8],
    status: u8,
    written: &str,
) -> Result<(), Fail> {
    let name = String::from_str(alloc, "file")?;
    let bytes = Vec::from_slice(alloc, text)?;
    let mut shelf = SureShelf::new(Vec::from_array(alloc, [(name, bytes)])?);
    let mut out = SureSink::new(alloc);
    let words = words(alloc, line)?;
    assert_eq!(rt; run(alloc, &words, &mut shelf, &mut out), status);
    assert_eq!(rt; out.written(), written.as_bytes());
    Ok(())
}

const REPORTS_ROWS: &[(&str, u8, &str)] = &[
    (TWO_ROADS, 0, TWO_ROADS_REPORT),
    (TWO_ROADS_WITH_BLANKS, 0, TWO_ROADS_REPORT),
    (
        TWO_PAIRS,
        0,
        "npp-certificate 1\nstatus optimal\nwidth 64\nlower 12\nupper 12\nopened 1\ntoll 0 3\npath 0 2 3 1 0\npath 1 2 3 3 0\n",
    ),
    (
        THREE_PAIRS,
        0,
        "npp-certificate 1\nstatus optimal\nwidth 64\nlower 15\nupper 15\nopened 2\ntoll 0 3\npath 0 2 3 1 0\npath 1 2 3 3 0\npath 2 2 3 5 0\n",
    ),
    (
        RING,
        0,
        "npp-certificate 1\nstatus optimal\nwidth 64\nlower 3\nupper 3\nopened 0\ntoll 0 1/2\ntoll 1 1/2\ntoll 2 1/2\npath 0 0 1 0 1\npath 1 0 1 1 2\npath 2 0 1 2 0\n",
    ),
    (
        "npp 1\nnode a\nnode b\nfree a b 10\ntoll a b 2\ntoll a b 4\npair a b 1\n",
        0,
        "npp-certificate 1\nstatus optimal\nwidth 64\nlower 8\nupper 8\nopened 0\ntoll 0 8\ntoll 1 6\npath 0 2 8 1\n",
    ),
    (
        "npp 1\nnode a\nnode b\nfree a b 4\npair a b 1\n",
        0,
        "npp-certificate 1\nstatus optimal\nwidth 64\nlower 0\nupper 0\nopened 0\npath 0 4 0 0\n",
    ),
    (
        "npp 1\nnode a\nnode b\nfree a b 5\ntoll a b 5\npair a b 3\n",
        0,
        "npp-certificate 1\nstatus optimal\nwidth 64\nlower 0\nupper 0\nopened 0\ntoll 0 0\npath 0 5 0 0\n",
    ),
    (
        "npp 1\nnode a\nnode b\nnode c\nfree a b 10\ntoll a b 2\nfree a c 0\ntoll c a 0\npair a b 5\n",
        0,
        "npp-certificate 1\nstatus optimal\nwidth 64\nlower 40\nupper 40\nopened 0\ntoll 0 8\ntoll 1 0\npath 0 2 8 1\n",
    ),
];

#[test]
fn reports(rt: HostRuntime) -> Result<(), Fail> {
    for row in REPORTS_ROWS {
        let (text, status, written) = *row;
        expect(
            &rt,
            rt.alloc(),
            "solve file --brief",
            text.as_bytes(),
            status,
            written,
        )?;
    }
    Ok(())
}

const A_SMALL_TOLL_AMONG_GREAT_COSTS_ROWS: &[(usize, &str)] = &[
    (1, "status optimal"),
    (3, "lower 1900001"),
    (4, "upper 1900001"),
    (6, "toll 0 1"),
    (7, "path 0 0 1 4 0"),
    (8, "path 1 0 1 6 0"),
    (9, "path 2 0 1 1 0"),
];

// A bound in floating point comes to 2,800,001 here; no tolls earn more than 1,900,001.
#[test]
fn a_small_toll_among_great_costs(rt: HostRuntime) -> Result<(), Fail> {
    let alloc = rt.alloc();
    let name = String::from_str(alloc, "file")?;
    let bytes = Vec::from_slice(alloc, STEEP_PAIRS.as_bytes())?;
    let mut shelf = SureShelf::new(Vec::from_array(alloc, [(name, bytes)])?);
    let mut out = SureSink::new(alloc);
    let words = words(alloc, "solve file --brief")?;
    assert_eq!(rt; run(alloc, &words, &mut shelf, &mut out), 0);
    let text = std::str::from_utf8(out.written())?;
    assert_eq!(rt; text.lines().count(), 10);
    for row in A_SMALL_TOLL_AMONG_GREAT_COSTS_ROWS {
        let (index, line) = *row;
        assert_eq!(rt; text.lines().nth(index), Some(line));
    }
    Ok(())
}

const SPANS_ROWS: &[(&str, &str)] = &[
    (TWO_ROADS, "span 0 10 2\nbasic 40\n"),
    (
        THREE_PAIRS,
        "span 0 10 2\nspan 1 8 2\nspan 2 5 2\nbasic 23\n",
    ),
];

#[test]
fn spans(rt: HostRuntime) -> Result<(), Fail> {
    for row in SPANS_ROWS {
        let (text, written) = *row;
        expect(&rt, rt.alloc(), "bounds file", text.as_bytes(), 0, written)?;
    }
    Ok(())
}

const TOLLS_ONLY: &str = "npp 1\nnode a\nnode b\ntoll a b 1\npair a b 1\n";

const REPEATED: &str = "npp 1\nnode a\nnode a\n";

const REFUSALS_ROWS: &[(&str, &str, u8, &str)] = &[
    ("solve file", TOLLS_ONLY, 10, "refused no-free-path 0\n"),
    ("bounds file", TOLLS_ONLY, 10, "refused no-free-path 0\n"),
    ("paths file", TOLLS_ONLY, 10, "refused no-free-path 0\n"),
    ("solve file", "", 3, "refused instance line 1 Header\n"),
    (
        "solve file",
        REPEATED,
        3,
        "refused instance line 3 RepeatedNode\n",
    ),
    ("solve none", "", 4, "missing none\n"),
    ("paths none", "", 4, "missing none\n"),
];

#[test]
fn refusals(rt: HostRuntime) -> Result<(), Fail> {
    for row in REFUSALS_ROWS {
        let (line, text, status, written) = *row;
        expect(&rt, rt.alloc(), line, text.as_bytes(), status, written)?;
    }
    let long = vec![in rt.alloc(); b'#'; 4_194_305]?;
    expect(
        &rt,
        rt.alloc(),
        "solve file",
        &long,
        12,
        "refused too-long file\n",
    )
}

const NO_JOB_ROWS: &[&str] = &[
    "solve",
    "solve file file",
    "paths file file",
    "price file",
    "eval file",
    "check file",
    "upgrade file",
    "solve file --numbers 16",
    "solve file --cuts 0",
    "solve file --budget",
    "solve file --budget 100001",
    "solve file --budget x",
    "solve file --brief --brief",
    "solve --file",
    "paths -x",
    "solve --help",
    "gen x",
    "gen 1000000",
    "demo 1000000",
    "demo 7 7",
];

// Words that are refused, each for a cause of its own.
#[test]
fn no_job(rt: HostRuntime) -> Result<(), Fail> {
    for row in NO_JOB_ROWS {
        let line = *row;
        expect(&rt, rt.alloc(), line, TWO_ROADS.as_bytes(), 2, USAGE)?;
    }
    Ok(())
}

const OPTIONS_ROWS: &[(&str, &str)] = &[
    ("solve file --brief --budget +007", TWO_ROADS_REPORT),
    ("--budget=-0 solve --brief file", TWO_ROADS_REPORT),
    ("solve --brief -- file", TWO_ROADS_REPORT),
    ("bounds file --brief --budget 3", "span 0 10 2\nbasic 40\n"),
];

// What is taken as a number is taken, and an option may stand anywhere; a job that does not use it goes on without it.
#[test]
fn options(rt: HostRuntime) -> Result<(), Fail> {
    for row in OPTIONS_ROWS {
        let (line, written) = *row;
        expect(&rt, rt.alloc(), line, TWO_ROADS.as_bytes(), 0, written)?;
    }
    Ok(())
}

const NO_TOLL: &str =
    "npp-certificate 1\nstatus optimal\nwidth 64\nlower 0\nupper 0\nopened 0\npath 0 4 0 0\ncover 0 0\nfree 0\ncuts 0\ntree\nopen\nend\n";

const CERTIFICATES_ROWS: &[(&str, &str)] = &[
    (TWO_ROADS, TWO_ROADS_CERTIFICATE),
    (TWO_ROADS_WITH_BLANKS, TWO_ROADS_CERTIFICATE),
    ("npp 1\nnode a\nnode b\nfree a b 4\npair a b 1\n", NO_TOLL),
];

// Whole certificates: one of a root that was not opened, and one of no toll arc.
#[test]
fn certificates(rt: HostRuntime) -> Result<(), Fail> {
    for row in CERTIFICATES_ROWS {
        let (text, written) = *row;
        expect(&rt, rt.alloc(), "solve file", text.as_bytes(), 0, written)?;
    }
    Ok(())
}

const BUDGETS_ROWS: &[(&str, u8, &str)] = &[
    (
        "solve file --budget 1 --brief",
        1,
        "npp-certificate 1\nstatus budget\nwidth 64\nlower 15\nupper 78/5\nopened 1\ntoll 0 3\npath 0 2 3 1 0\npath 1 2 3 3 0\npath 2 2 3 5 0\n",
    ),
    (
        "solve file --budget 15 --brief",
        0,
        "npp-certificate 1\nstatus optimal\nwidth 64\nlower 15\nupper 15\nopened 2\ntoll 0 3\npath 0 2 3 1 0\npath 1 2 3 3 0\npath 2 2 3 5 0\n",
    ),
];

// One node leaves a bound above the lower value; as many as twice the choices less one must close it.
#[test]
fn budgets(rt: HostRuntime) -> Result<(), Fail> {
    for row in BUDGETS_ROWS {
        let (line, status, written) = *row;
        expect(
            &rt,
            rt.alloc(),
            line,
            THREE_PAIRS.as_bytes(),
            status,
            written,
        )?;
    }
    Ok(())
}

const USEFUL_PATHS_ROWS: &[(&str, &str)] = &[
    (
        NEEDLESS_TOLL,
        "commodity 0 2\nuseful 0 0 2 tolls 0 arcs 1 2\nuseful 0 1 10 tolls arcs 0\n",
    ),
    (
        CYCLES,
        "commodity 0 5\nuseful 0 0 1 tolls 6 arcs 7 10\nuseful 0 1 2 tolls 1 arcs 2\nuseful 0 2 2 tolls 2 arcs 3\nuseful 0 3 4 tolls 3 arcs 4\nuseful 0 4 10 tolls arcs 1\ncommodity 1 5\nuseful 1 0 2 tolls 0 6 arcs 10 0\nuseful 1 1 3 tolls 0 1 arcs 8 2 0\nuseful 1 2 3 tolls 0 2 arcs 8 3 0\nuseful 1 3 5 tolls 0 3 arcs 8 4 0\nuseful 1 4 9 tolls arcs 8 11\n",
    ),
];

// Parallel arcs, a loop and a cycle of cost 0 among them.
#[test]
fn useful_paths(rt: HostRuntime) -> Result<(), Fail> {
    for row in USEFUL_PATHS_ROWS {
        let (text, written) = *row;
        expect(&rt, rt.alloc(), "paths file", text.as_bytes(), 0, written)?;
    }
    Ok(())
}

// 16 links have 131,070 useful labels.
#[test]
fn over_the_limit_on_labels(rt: HostRuntime) -> Result<(), Fail> {
    let text = chain(rt.alloc(), 16)?;
    let refusal = "refused too-many-labels 0\n";
    expect(&rt, rt.alloc(), "paths file", text.as_bytes(), 11, refusal)
}

// 11 links have 2,048 useful paths.
#[test]
fn over_the_limit_on_paths(rt: HostRuntime) -> Result<(), Fail> {
    let text = chain(rt.alloc(), 11)?;
    let refusal = "refused too-many-paths 0\n";
    for line in ["paths file", "solve file"] {
        expect(&rt, rt.alloc(), line, text.as_bytes(), 11, refusal)?;
    }
    Ok(())
}

// A toll-free arc of cost 200, and beside it so many toll arcs of the costs from 0 on.
fn side_by_side(alloc: Global, tolls: u32) -> Result<String, Fail> {
    let mut text = String::from_str(alloc, "npp 1\nnode a\nnode b\nfree a b 200\n")?;
    for cost in 0..tolls {
        writeln!(text, "toll a b {cost}")?;
    }
    writeln!(text, "pair a b 1")?;
    Ok(text)
}

// Each toll arc of the 128 costs what the others do where its toll is 200 less its cost.
#[test]
fn as_many_toll_arcs_as_there_may_be(rt: HostRuntime) -> Result<(), Fail> {
    let alloc = rt.alloc();
    let mut useful = String::from_str(alloc, "commodity 0 129\n")?;
    let mut limits = String::new(alloc);
    let mut tolls = String::new(alloc);
    for toll in 0..128_u32 {
        let arc = toll + 1;
        writeln!(useful, "useful 0 {toll} {toll} tolls {toll} arcs {arc}")?;
        writeln!(limits, "limit {toll} -")?;
        writeln!(tolls, "toll {toll} {}", 200_u32.saturating_sub(toll))?;
    }
    writeln!(useful, "useful 0 128 200 tolls arcs 0")?;
    let report = format!(in alloc;
        "npp-certificate 2\nstatus optimal\nwidth 64\nlower 200\nupper 200\nopened 0\ninstance 2 129 128 1\n{limits}{tolls}path 0 0 200 1\n"
    )?;
    let most = side_by_side(alloc, 128)?;
    let rows = [
        ("bounds file", "span 0 200 0\nbasic 200\n"),
        ("paths file", useful.as_str()),
        ("solve file --brief", report.as_str()),
    ];
    for (line, written) in rows {
        expect(&rt, alloc, line, most.as_bytes(), 0, written)?;
    }
    let over = side_by_side(alloc, 129)?;
    let refusal = "refused instance line 133 TooManyTolls\n";
    expect(&rt, alloc, "paths file", over.as_bytes(), 3, refusal)
}

// Two roads whose toll arc has this line, in the second format.
fn with_toll_line(alloc: Global, line: &str) -> Result<String, Fail> {
    let text = format!(in alloc; "npp 2\nnode a\nnode b\nfree a b 10\n{line}\npair a b 5\n")?;
    Ok(text)
}

// The basic bound and useful paths hold of all tolls, whatever the ceiling; the search keeps it, and a report names it.
#[test]
fn ceilings(rt: HostRuntime) -> Result<(), Fail> {
    let alloc = rt.alloc();
    let bound =
        "npp-certificate 2\nstatus optimal\nwidth 64\nlower 15\nupper 15\nopened 1\ninstance 2 2 1 1\nlimit 0 3\ntoll 0 3\npath 0 2 3 1\n";
    let zero =
        "npp-certificate 2\nstatus optimal\nwidth 64\nlower 0\nupper 0\nopened 1\ninstance 2 2 1 1\nlimit 0 0\ntoll 0 0\npath 0 2 0 1\n";
    let loose =
        "npp-certificate 2\nstatus optimal\nwidth 64\nlower 40\nupper 40\nopened 0\ninstance 2 2 1 1\nlimit 0 20\ntoll 0 8\npath 0 2 8 1\n";
    let useful = "commodity 0 2\nuseful 0 0 2 tolls 0 arcs 1\nuseful 0 1 10 tolls arcs 0\n";
    let rows = [
        ("solve file --brief", "toll a b 2 3", 0, bound),
        ("solve file --brief", "toll a b 2 0", 0, zero),
        ("solve file --brief", "toll a b 2 20", 0, loose),
        ("solve file --brief", "toll a b 2 -", 0, TWO_ROADS_REPORT),
        ("bounds file", "toll a b 2 3", 0, "span 0 10 2\nbasic 40\n"),
        ("paths file", "toll a b 2 0", 0, useful),
        (
            "solve file",
            "toll a b 2",
            3,
            "refused instance line 5 FieldCount\n",
        ),
        (
            "solve file",
            "toll a b 2 x",
            3,
            "refused instance line 5 BadNumber\n",
        ),
        (
            "solve file",
            "toll a b 2 1000000001",
            3,
            "refused instance line 5 NumberTooLarge\n",
        ),
    ];
    for (words, line, status, written) in rows {
        let text = with_toll_line(alloc, line)?;
        expect(&rt, alloc, words, text.as_bytes(), status, written)?;
    }
    let other = "npp 3\nnode a\n";
    let refusal = "refused instance line 1 Header\n";
    expect(&rt, alloc, "solve file", other.as_bytes(), 3, refusal)
}

const A_GENERATED_INSTANCE_ROWS: &[(usize, &str)] = &[
    (0, "npp 1"),
    (27, "toll m0 m1 4"),
    (28, "toll m1 m2 4"),
    (29, "toll m2 m3 3"),
    (39, "free t0 t1 12"),
    (40, "free t1 t0 12"),
    (73, "pair t4 t10 3"),
    (74, "pair t1 t4 16"),
];

#[test]
fn a_generated_instance(rt: HostRuntime) -> Result<(), Fail> {
    let alloc = rt.alloc();
    let mut shelf = SureShelf::new(Vec::new(alloc));
    let mut out = SureSink::new(alloc);
    let words = words(alloc, "gen 7")?;
    assert_eq!(rt; run(alloc, &words, &mut shelf, &mut out), 0);
    let text = std::str::from_utf8(out.written())?;
    assert_eq!(rt; text.lines().count(), 83);
    for row in A_GENERATED_INSTANCE_ROWS {
        let (index, line) = *row;
        assert_eq!(rt; text.lines().nth(index), Some(line));
    }
    Ok(())
}

// `demo` prints what `solve --brief` prints of the text of the generated instance.
#[test]
fn a_demonstration(rt: HostRuntime) -> Result<(), Fail> {
    let alloc = rt.alloc();
    let mut shelf = SureShelf::new(Vec::new(alloc));
    let mut generated = SureSink::new(alloc);
    let gen_words = words(alloc, "gen 7")?;
    assert_eq!(rt; run(alloc, &gen_words, &mut shelf, &mut generated), 0);
    let mut shown = SureSink::new(alloc);
    let demo_words = words(alloc, "demo 7 --budget 5")?;
    let status = run(alloc, &demo_words, &mut shelf, &mut shown);
    let text = std::str::from_utf8(shown.written())?;
    assert_eq!(rt; text.lines().nth(0), Some("npp-certificate 1"));
    expect(
        &rt,
        alloc,
        "solve file --budget 5 --brief",
        generated.written(),
        status,
        text,
    )
}

#[test]
fn slow_and_failing(rt: HostRuntime) -> Result<(), Fail> {
    let alloc = rt.alloc();
    let words = words(alloc, "bounds file")?;
    let mut out = SureSink::new(alloc);
    let mut slow = Slow {
        text: TWO_ROADS,
        most: 1000,
        faults: 0,
    };
    assert_eq!(rt; run(alloc, &words, &mut slow, &mut out), 0);
    assert_eq!(rt; out.written(), b"span 0 10 2\nbasic 40\n".as_slice());
    let mut out = SureSink::new(alloc);
    let mut failing = Slow {
        text: TWO_ROADS,
        most: 20,
        faults: 0,
    };
    assert_eq!(rt; run(alloc, &words, &mut failing, &mut out), 5);
    assert_eq!(rt; out.written(), b"shelf fault file\n".as_slice());
    let mut slow = Slow {
        text: TWO_ROADS,
        most: 1000,
        faults: 0,
    };
    let mut broken = Broken { faults: 0 };
    assert_eq!(rt; run(alloc, &words, &mut slow, &mut broken), 6);
    Ok(())
}
