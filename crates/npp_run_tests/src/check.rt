//! Runs of `check`, on an instance and a certificate.

use crate::fixtures::{CEILING, expect_run, two_files, words};
use npp_cli::run;
use npp_fixtures::{
    THREE_PAIRS, THREE_PAIRS_CERTIFICATE, TWO_ROADS, TWO_ROADS_CERTIFICATE, with_lines,
};
use npp_outside::{MemoryShelf, MemorySink, SureShelf, SureSink};
use std::alloc::Global;
use std::process::Abort;
use std::test::Fail;

// A run of `check` on these two files: its status and what is written are these.
fn expect(
    rt: &impl Abort,
    alloc: Global,
    instance: &str,
    certificate: &[u8],
    status: u8,
    written: &str,
) -> Result<(), Fail> {
    let shelf = two_files(instance, "certificate", certificate);
    expect_run(rt, alloc, "check file certificate", shelf, status, written)
}

#[test]
fn accepted(rt: HostRuntime) -> Result<(), Fail> {
    let rows = [
        (
            TWO_ROADS,
            TWO_ROADS_CERTIFICATE,
            "accepted lower 40 upper 40\n",
        ),
        (
            THREE_PAIRS,
            THREE_PAIRS_CERTIFICATE,
            "accepted lower 15 upper 78/5\n",
        ),
    ];
    for (instance, certificate, written) in rows {
        expect(
            &rt,
            rt.alloc(),
            instance,
            certificate.as_bytes(),
            0,
            written,
        )?;
    }
    Ok(())
}

// Changes of the certificate of the two roads, each with the line and the rule that it breaks.
#[test]
fn changes_of_a_small_certificate(rt: HostRuntime) -> Result<(), Fail> {
    let rows = [
        (16, 16, "", "16 Order"),
        (7, 7, "toll 0 16/2\n", "7 Text"),
        (8, 8, "path 0 2 7 1\n", "8 Path"),
        (7, 8, "toll 0 9\npath 0 2 9 1\n", "13 Path"),
        (4, 4, "lower 39\n", "13 Lower"),
        (5, 5, "upper 39\n", "16 Upper"),
        (9, 12, "cover 0 1\nstart\nfree 0\n", "11 Cover NotClosed"),
        (15, 15, "basic large\nsplit 0 0 1\nopen\nopen\n", "16 Split"),
        (2, 2, "status budget\n", "16 Status"),
        (6, 6, "opened 1\n", "16 Opened"),
    ];
    let alloc = rt.alloc();
    for (from, to, lines, named) in rows {
        let certificate = with_lines(alloc, TWO_ROADS_CERTIFICATE, from, to, lines)?;
        let written = format!(in alloc; "refused certificate line {named}\n")?;
        expect(
            &rt,
            alloc,
            TWO_ROADS,
            certificate.as_bytes(),
            9,
            written.as_str(),
        )?;
    }
    let whole = TWO_ROADS_CERTIFICATE.as_bytes();
    let cut = whole
        .get(..whole.len().saturating_sub(3))
        .ok_or("long enough")?;
    let refusal = "refused certificate line 16 Text\n";
    expect(&rt, alloc, TWO_ROADS, cut, 9, refusal)
}

// The same of the certificate of one opened node.
#[test]
fn changes_of_a_dual_answer(rt: HostRuntime) -> Result<(), Fail> {
    let rows = [
        (7, 7, "toll 0 -3\n", "7 Tolls"),
        (10, 10, "path 2 2 3 5\n", "10 Path"),
        (14, 14, "step 2 0\n", "14 Cover NotAStep"),
        (28, 28, "inverse 6\n", "28 Evidence"),
        (28, 28, "farkas 6\n", "34 Evidence"),
        (29, 30, "y below 0 1 19/20\ny below 0 0 1\n", "30 Evidence"),
        (30, 30, "y below 0 1 0\n", "30 Evidence"),
        (34, 34, "y link 0 2 8/5\n", "34 Evidence"),
        (35, 35, "split 2 0 1\n", "35 Split"),
        (6, 6, "opened 2\n", "38 Opened"),
        (5, 5, "upper 15\n", "38 Upper"),
        (2, 2, "status optimal\n", "38 Status"),
    ];
    let alloc = rt.alloc();
    for (from, to, lines, named) in rows {
        let certificate = with_lines(alloc, THREE_PAIRS_CERTIFICATE, from, to, lines)?;
        let written = format!(in alloc; "refused certificate line {named}\n")?;
        expect(
            &rt,
            alloc,
            THREE_PAIRS,
            certificate.as_bytes(),
            9,
            written.as_str(),
        )?;
    }
    Ok(())
}

// Causes other than a broken line, and a line that is broken in a certificate that is too long by what stands behind it.
#[test]
fn other_refusals(rt: HostRuntime) -> Result<(), Fail> {
    let tolls_only = "npp 1\nnode a\nnode b\ntoll a b 1\npair a b 1\n";
    let rows = [
        (tolls_only, 10, "refused no-free-path 0\n"),
        ("npp 1\n", 3, "refused instance line 2 NoCommodity\n"),
    ];
    for (instance, status, written) in rows {
        expect(&rt, rt.alloc(), instance, b"", status, written)?;
    }
    let files = two_files(TWO_ROADS, "certificate", b"");
    let missing = "check file none";
    expect_run(&rt, rt.alloc(), missing, files, 4, "missing none\n")
}

// The shelf gives 40 bytes of the certificate, one a call, and then fails: a line that is broken before is named.
#[test]
fn a_line_is_judged_before_more_is_asked_for(rt: HostRuntime) -> Result<(), Fail> {
    let alloc = rt.alloc();
    let spoiled = with_lines(alloc, TWO_ROADS_CERTIFICATE, 1, 1, "npp-certificate 3\n")?;
    let rows = [
        (spoiled.as_str(), 9, "refused certificate line 1 Text\n"),
        (TWO_ROADS_CERTIFICATE, 5, "shelf fault c\n"),
    ];
    for (certificate, status, written) in rows {
        let mut files = two_files(TWO_ROADS, "c", certificate.as_bytes());
        files.good = 40;
        expect_run(&rt, alloc, "check file c", files, status, written)?;
    }
    Ok(())
}

// A toll above its ceiling in the certificate that `solve` prints, and that certificate for the roads without a ceiling.
#[test]
fn a_ceiling(rt: HostRuntime) -> Result<(), Fail> {
    let alloc = rt.alloc();
    let mut shelf = two_files(CEILING, "certificate", b"");
    let mut out = SureSink::new(alloc);
    let solve_words = words(alloc, "solve file")?;
    assert_eq!(rt; run(alloc, &solve_words, &mut shelf, &mut out), 0);
    let certificate = std::str::from_utf8(out.written())?;
    let above = with_lines(alloc, certificate, 9, 9, "toll 0 4\n")?;
    let rows = [
        (CEILING, certificate, 0, "accepted lower 15 upper 15\n"),
        (
            CEILING,
            above.as_str(),
            9,
            "refused certificate line 9 Tolls\n",
        ),
        (
            TWO_ROADS,
            certificate,
            9,
            "refused certificate line 8 Instance\n",
        ),
    ];
    for (instance, certificate, status, written) in rows {
        expect(
            &rt,
            alloc,
            instance,
            certificate.as_bytes(),
            status,
            written,
        )?;
    }
    Ok(())
}

// What `solve` prints, `check` accepts with the printed values.
#[test]
fn what_is_printed_is_accepted(rt: HostRuntime) -> Result<(), Fail> {
    let alloc = rt.alloc();
    let mut nothing = SureShelf::new(Vec::new(alloc));
    let mut generated = SureSink::new(alloc);
    let gen_words = words(alloc, "gen 7")?;
    assert_eq!(rt; run(alloc, &gen_words, &mut nothing, &mut generated), 0);
    let instance = std::str::from_utf8(generated.written())?;
    for (instance, line) in [
        (THREE_PAIRS, "solve file"),
        (THREE_PAIRS, "solve file --budget 1"),
        (instance, "solve file --budget 5"),
    ] {
        let mut shelf = two_files(instance, "certificate", b"");
        let mut out = SureSink::new(alloc);
        let solve_words = words(alloc, line)?;
        run(alloc, &solve_words, &mut shelf, &mut out);
        let text = std::str::from_utf8(out.written())?;
        let lower = text.lines().nth(3).ok_or("a lower value")?;
        let upper = text.lines().nth(4).ok_or("an upper value")?;
        let written = format!(in alloc; "accepted {lower} {upper}\n")?;
        expect(&rt, alloc, instance, out.written(), 0, written.as_str())?;
    }
    Ok(())
}

// A shelf and a sink that fail where they are told to.
#[test]
fn failing(rt: HostRuntime) -> Result<(), Fail> {
    let alloc = rt.alloc();
    let solve_words = words(alloc, "solve file")?;
    let mut shelf = two_files(TWO_ROADS, "certificate", b"");
    let mut cut = MemorySink::new(alloc, 16, vec![in alloc; 2]?);
    assert_eq!(rt; run(alloc, &solve_words, &mut shelf, &mut cut), 6);
    assert_eq!(rt; cut.written(), b"npp-certificate ".as_slice());
    let file = String::from_str(alloc, "file")?;
    let bytes = Vec::from_slice(alloc, TWO_ROADS.as_bytes())?;
    let mut failing = MemoryShelf::new(
        Vec::from_array(alloc, [(file, bytes)])?,
        vec![in alloc; 1]?,
    );
    let mut out = SureSink::new(alloc);
    assert_eq!(rt; run(alloc, &solve_words, &mut failing, &mut out), 5);
    assert_eq!(rt; out.written(), b"shelf fault file\n".as_slice());
    Ok(())
}
