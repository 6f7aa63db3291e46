//! Each single change of the smallest certificate is refused or leaves both values as they are.

use npp_fixtures::instance_of;
use npp_frac::print_fraction;
use npp_net::Instance;
use npp_stream::check_text;
use std::alloc::Global;
use std::process::Abort;
use std::test::Fail;

/// One commodity and no toll arc.
const NO_TOLL: &str = "npp 1
node a
node b
free a b 4
pair a b 1
";

/// Its certificate, whose values are 0.
const NO_TOLL_CERTIFICATE: &str = "npp-certificate 1
status optimal
width 64
lower 0
upper 0
opened 0
path 0 4 0 0
cover 0 0
free 0
cuts 0
tree
open
end
";

/// The text is refused, or proves the values 0.
fn expect_no_other_value(
    rt: &impl Abort,
    alloc: Global,
    instance: &Instance,
    bytes: &[u8],
) -> Result<bool, Fail> {
    let Ok(pair) = check_text(alloc, instance, bytes) else {
        return Ok(false);
    };
    let lower = print_fraction(alloc, pair.lower)?;
    let upper = print_fraction(alloc, pair.upper)?;
    assert_eq!(rt; lower.as_str(), "0");
    assert_eq!(rt; upper.as_str(), "0");
    Ok(true)
}

/// Each byte in place of the one at `at`.
fn expect_of_bytes(
    rt: &impl Abort,
    alloc: Global,
    instance: &Instance,
    bytes: &mut [u8],
    at: usize,
) -> Result<(), Fail> {
    for byte in 0..256u16 {
        if at < bytes.len() {
            bytes[at] = byte as u8;
        }
        expect_no_other_value(rt, alloc, instance, bytes)?;
    }
    Ok(())
}

#[test]
fn a_changed_byte_changes_no_value(rt: HostRuntime) -> Result<(), Fail> {
    let alloc = rt.alloc();
    let network = instance_of(alloc, NO_TOLL)?;
    for at in 0..NO_TOLL_CERTIFICATE.len() {
        let mut bytes = Vec::from_slice(alloc, NO_TOLL_CERTIFICATE.as_bytes())?;
        expect_of_bytes(&rt, alloc, &network, &mut bytes, at)?;
    }
    Ok(())
}

#[test]
fn only_the_whole_text_is_accepted(rt: HostRuntime) -> Result<(), Fail> {
    let alloc = rt.alloc();
    let network = instance_of(alloc, NO_TOLL)?;
    let bytes = NO_TOLL_CERTIFICATE.as_bytes();
    for end in 0..bytes.len() {
        let accepted = expect_no_other_value(&rt, alloc, &network, &bytes[..end])?;
        assert!(rt; !accepted);
    }
    let accepted = expect_no_other_value(&rt, alloc, &network, bytes)?;
    assert!(rt; accepted);
    Ok(())
}
