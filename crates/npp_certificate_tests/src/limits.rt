//! Limits of certificates.

use crate::answers::{expect_answer, expect_with};
use crate::roads::CLOSED;
use npp_fixtures::{TWO_ROADS, TWO_ROADS_CERTIFICATE, instance_of, with_lines};
use npp_frac::Frac128;
use npp_net::Listed;
use npp_tree::Item;
use std::alloc::Global;
use std::test::Fail;

/// The text of a certificate of two roads whose cover names the toll road so many times.
fn certificate(alloc: Global, times: u32) -> Result<String, Fail> {
    let labels = times.saturating_add(1);
    let mut cover = format!(in alloc; "cover 0 {labels}\nstart\n")?;
    for _ in 0..times {
        cover.push_str("step 0 1\n")?;
    }
    Ok(with_lines(alloc, TWO_ROADS_CERTIFICATE, 9, 11, cover.as_str())?)
}

/// The text of an instance with so many toll roads beside a free one.
fn toll_roads(alloc: Global, count: u32) -> Result<String, Fail> {
    let mut text = format!(in alloc; "npp 1\nnode a\nnode b\nfree a b 10\npair a b 5\n")?;
    for _ in 0..count {
        text.push_str("toll a b 2\n")?;
    }
    Ok(text)
}

#[test]
fn there_are_at_most_2000_useful_paths(rt: HostRuntime) -> Result<(), Fail> {
    let alloc = rt.alloc();
    let instance = instance_of(alloc, TWO_ROADS)?;
    let most = certificate(alloc, 1999)?;
    expect_answer::<Frac128>(&rt, alloc, &instance, most.as_str(), "accepted 40 40")?;
    let more = certificate(alloc, 2000)?;
    expect_answer::<Frac128>(&rt, alloc, &instance, more.as_str(), "2011 TooManyPaths")
}

#[test]
fn the_first_form_is_for_64_toll_arcs(rt: HostRuntime) -> Result<(), Fail> {
    let alloc = rt.alloc();
    let wrong_toll = with_lines(alloc, TWO_ROADS_CERTIFICATE, 7, 7, "toll 1 0\n")?;
    for (count, wanted) in [(64, "7 Order"), (65, "1 Instance")] {
        let network = toll_roads(alloc, count)?;
        let instance = instance_of(alloc, network.as_str())?;
        expect_answer::<Frac128>(&rt, alloc, &instance, wrong_toll.as_str(), wanted)?;
    }
    Ok(())
}

#[test]
fn a_part_is_not_empty(rt: HostRuntime) -> Result<(), Fail> {
    let alloc = rt.alloc();
    let nothing = Item::Split {
        commodity: 0,
        part: Listed::of(Vec::new(alloc)),
    };
    let case = (15, 16, "basic large", "16 Split");
    expect_with(&rt, alloc, CLOSED, case, nothing)
}
