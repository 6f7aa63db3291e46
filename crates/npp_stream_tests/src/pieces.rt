//! Each line is judged before more bytes are asked for, and each fault is answered where it is met.

use crate::slow_shelf::SlowShelf;
use crate::texts::said;
use npp_fixtures::{TWO_ROADS, TWO_ROADS_CERTIFICATE, instance_of, with_lines};
use npp_outside::MemoryShelf;
use npp_stream::{check_file, check_text};
use std::alloc::Global;
use std::process::Abort;
use std::test::Fail;

/// Checks bytes that come one by one, from a shelf that fails after so many, and counts those that were asked for.
fn expect(
    rt: &impl Abort,
    alloc: Global,
    bytes: &[u8],
    good: u64,
    answer: &str,
    calls: u64,
) -> Result<(), Fail> {
    let network = instance_of(alloc, TWO_ROADS)?;
    let mut shelf = SlowShelf::new(bytes, 1, good);
    let found = check_file(alloc, &network, &mut shelf, "c");
    let text = said(alloc, found)?;
    assert_eq!(rt; text.as_str(), answer);
    assert_eq!(rt; shelf.calls(), calls);
    Ok(())
}

#[test]
fn a_broken_line_comes_before_a_later_fault(rt: HostRuntime) -> Result<(), Fail> {
    let alloc = rt.alloc();
    let text = with_lines(alloc, TWO_ROADS_CERTIFICATE, 1, 1, "npp-certificate 3\n")?;
    expect(&rt, alloc, text.as_str().as_bytes(), 40, "line 1 Text", 18)?;
    expect(
        &rt,
        alloc,
        TWO_ROADS_CERTIFICATE.as_bytes(),
        40,
        "Failed",
        40,
    )
}

#[test]
fn a_line_without_end_is_refused_when_it_is_too_long(rt: HostRuntime) -> Result<(), Fail> {
    let alloc = rt.alloc();
    let bytes = vec![in alloc; b'x'; 65_537]?;
    expect(&rt, alloc, &bytes, 65_537, "line 1 Text", 65_537)?;
    expect(&rt, alloc, &bytes, 65_536, "Failed", 65_536)
}

/// The shelf's one file `c` with the certificate, whose calls with these numbers fail.
fn expect_failing(
    rt: &impl Abort,
    alloc: Global,
    failing: &[u64],
    name: &str,
    answer: &str,
) -> Result<(), Fail> {
    let network = instance_of(alloc, TWO_ROADS)?;
    let bytes = Vec::from_slice(alloc, TWO_ROADS_CERTIFICATE.as_bytes())?;
    let mut files = Vec::new(alloc);
    files.push((String::from_str(alloc, "c")?, bytes))?;
    let mut shelf = MemoryShelf::new(files, Vec::from_slice(alloc, failing)?);
    let found = check_file(alloc, &network, &mut shelf, name);
    let text = said(alloc, found)?;
    assert_eq!(rt; text.as_str(), answer);
    Ok(())
}

#[test]
fn each_call_may_fail(rt: HostRuntime) -> Result<(), Fail> {
    let alloc = rt.alloc();
    expect_failing(&rt, alloc, &[1], "c", "Failed")?;
    expect_failing(&rt, alloc, &[2], "c", "Failed")?;
    expect_failing(&rt, alloc, &[3], "c", "accepted 40 40")?;
    expect_failing(&rt, alloc, &[1], "d", "Failed")?;
    expect_failing(&rt, alloc, &[2], "d", "Missing")
}

#[test]
fn a_text_in_memory_is_judged(rt: HostRuntime) -> Result<(), Fail> {
    let network = instance_of(rt.alloc(), TWO_ROADS)?;
    let found = check_text(rt.alloc(), &network, TWO_ROADS_CERTIFICATE.as_bytes());
    assert!(rt; found.is_ok());
    let broken = check_text(rt.alloc(), &network, b"npp-certificate 1");
    assert!(rt; broken.is_err());
    Ok(())
}
