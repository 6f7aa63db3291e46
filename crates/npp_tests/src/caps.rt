//! The caps of tolls, with ceilings and without.

use npp_fixtures::{covers_of, instance_of};
use npp_rows::caps;
use std::alloc::Global;
use std::test::Fail;

/// The one cap of three commodities that share a toll arc with this ceiling.
fn cap_within(alloc: Global, ceiling: &str) -> Result<String, Fail> {
    let text = format!(in alloc;
        "npp 2\nnode a\nnode b\nnode p\nnode q\nnode r\ntoll a b 2 {ceiling}\nfree p a 0\nfree p b 10\nfree q a 0\nfree q b 8\nfree r a 0\nfree r b 5\npair p b 1\npair q b 1\npair r b 3\n"
    )?;
    let net = instance_of(alloc, text.as_str())?;
    let covers = covers_of(alloc, &net)?;
    let covers = covers.as_slice();
    let caps = caps(alloc, &net, covers)?;
    Ok(format!(in alloc; "{caps:?}")?)
}

/// Ceilings with the caps.
const CAPS: &[(&str, &str)] = &[("-", "[8]"), ("20", "[8]"), ("3", "[3]"), ("0", "[0]")];

#[test]
fn a_cap_is_the_ceiling_or_the_greatest_gap(rt: HostRuntime) -> Result<(), Fail> {
    for (ceiling, want) in CAPS {
        let cap = cap_within(rt.alloc(), ceiling)?;
        assert_eq!(rt; cap.as_str(), *want);
    }
    Ok(())
}
