//! Runs of `upgrade`, on an instance and a certificate.
ghost use Rattle.std.specs.Prelude.{None};

use crate::fixtures::{CEILING, expect_run, two_files, words};
use npp_cli::run;
use npp_fixtures::{TWO_ROADS, TWO_ROADS_CERTIFICATE};
use npp_outside::{Shelf, ShelfAnswer, SureSink};
use npp_reader::read;
use npp_upgrade::upgrade;
use std::test::Fail;

// The certificate of the two roads in the second form.
const TWO_ROADS_SECOND: &str =
    "npp-certificate 2\nstatus optimal\nwidth 64\nlower 40\nupper 40\nopened 0\ninstance 2 2 1 1\nlimit 0 -\ntoll 0 8\npath 0 2 8 1\ncover 0 2\nstart\nstep 0 1\nfree 0\ncuts 0\ntree\nopen\nend\n";

// The toll of the ceiling earns 15, and the unopened root has the basic bound 40.
const CEILING_FIRST: &str =
    "npp-certificate 1\nstatus budget\nwidth 64\nlower 15\nupper 40\nopened 0\ntoll 0 3\npath 0 2 3 1\ncover 0 2\nstart\nstep 0 1\nfree 0\ncuts 0\ntree\nopen\nend\n";

// The same in the second form.
const CEILING_SECOND: &str =
    "npp-certificate 2\nstatus budget\nwidth 64\nlower 15\nupper 40\nopened 0\ninstance 2 2 1 1\nlimit 0 3\ntoll 0 3\npath 0 2 3 1\ncover 0 2\nstart\nstep 0 1\nfree 0\ncuts 0\ntree\nopen\nend\n";

// What is printed is accepted with the pair of what was taken, and is printed again as it is.
#[test]
fn both_forms(rt: HostRuntime) -> Result<(), Fail> {
    let alloc = rt.alloc();
    let roads = (TWO_ROADS, TWO_ROADS_SECOND, "accepted lower 40 upper 40\n");
    let ceiling = (CEILING, CEILING_SECOND, "accepted lower 15 upper 40\n");
    let rows = [
        (TWO_ROADS_CERTIFICATE, roads),
        (TWO_ROADS_SECOND, roads),
        (CEILING_FIRST, ceiling),
        (CEILING_SECOND, ceiling),
    ];
    for (taken, (instance, second, accepted)) in rows {
        let files = two_files(instance, "c", taken.as_bytes());
        expect_run(&rt, alloc, "upgrade file c", files, 0, second)?;
        let files = two_files(instance, "c", second.as_bytes());
        expect_run(&rt, alloc, "check file c", files, 0, accepted)?;
    }
    Ok(())
}

// Each in the order of the causes: the instance comes before the certificate.
#[test]
fn refusals(rt: HostRuntime) -> Result<(), Fail> {
    let tolls_only = "npp 1\nnode a\nnode b\ntoll a b 1\npair a b 1\n";
    let cut = "npp-certificate 1\nstatus optimal\nwidth 64";
    let rows = [
        (TWO_ROADS, cut, "c", 9, "refused certificate line 3 Text\n"),
        (TWO_ROADS, "", "c", 9, "refused certificate line 1 Order\n"),
        (
            CEILING,
            TWO_ROADS_SECOND,
            "c",
            9,
            "refused certificate line 8 Instance\n",
        ),
        (TWO_ROADS, "", "none", 4, "missing none\n"),
        (tolls_only, "", "none", 10, "refused no-free-path 0\n"),
        (
            "npp 1\n",
            "",
            "none",
            3,
            "refused instance line 2 NoCommodity\n",
        ),
    ];
    for (instance, certificate, name, status, written) in rows {
        let line = format!(in rt.alloc(); "upgrade file {name}")?;
        let files = two_files(instance, "c", certificate.as_bytes());
        expect_run(&rt, rt.alloc(), line.as_str(), files, status, written)?;
    }
    let mut failing = two_files(TWO_ROADS, "c", TWO_ROADS_CERTIFICATE.as_bytes());
    failing.good = 40;
    expect_run(
        &rt,
        rt.alloc(),
        "upgrade file c",
        failing,
        5,
        "shelf fault c\n",
    )
}

// The instance as `file`, and under each other name as many bytes as are asked for, without end.
#[derive(Drop)]
struct Endless;

impl Shelf for Endless {
    ghost held = { λ _. None };

    ghost faults = { λ _. 0 };

    ghost misses = { λ _. 0 };

    fn piece(&mut self, name: &str, at: u64, into: &mut [u8]) -> Result<usize, ShelfAnswer> {
        if name != "file" {
            return Ok(into.len());
        }
        let bytes = TWO_ROADS.as_bytes();
        if at >= bytes.len() as u64 || into.is_empty() {
            return Ok(0);
        }
        into[0] = bytes[at as usize];
        Ok(1)
    }
}

#[test]
fn too_long(rt: HostRuntime) -> Result<(), Fail> {
    let alloc = rt.alloc();
    let mut out = SureSink::new(alloc);
    let upgrade_words = words(alloc, "upgrade file c")?;
    assert_eq!(rt; run(alloc, &upgrade_words, &mut Endless, &mut out), 12);
    assert_eq!(rt; out.written(), b"refused too-long c\n".as_slice());
    Ok(())
}

// The call that `upgrade` makes.
#[test]
fn upgraded_bytes(rt: HostRuntime) -> Result<(), Fail> {
    let alloc = rt.alloc();
    let document = read(alloc, TWO_ROADS.as_bytes())?;
    let bytes = TWO_ROADS_CERTIFICATE.as_bytes();
    let text = upgrade(alloc, &document.instance, bytes).map_err(|_| "accepted")?;
    assert_eq!(rt; text.as_slice(), TWO_ROADS_SECOND.as_bytes());
    Ok(())
}
