//! The useful covers of small networks, and the limits on long chains.

ghost use Rattle.std.specs.Prelude.{◌<◌};

use crate::network::{DETOUR, cover_text, instance_of};
use npp_bounds::free_and_zero;
use npp_cover::{Cover, CoverDraft, CoverFault, StepDraft, check_cover};
use npp_labels::{CoversRefusal, LabelRefusal, useful, useful_all};
use npp_net::{Instance, Walk};
use npp_short::distances_to;
use std::alloc::{AllocError, Global};
use std::test::Fail;

/// A chain of so many links, each a toll-free arc of cost 1 beside a toll arc of cost 0. A commodity goes to its end from each of
/// the given nodes.
fn chain(alloc: Global, links: u32, origins: &[u32]) -> Result<String, AllocError>
    requires { links < 1000 }
{
    let mut text = String::from_str(alloc, "npp 1\nnode 0\n")?;
    for node in 0..links {
        let next = node + 1;
        write!(
            text,
            "node {next}\nfree {node} {next} 1\ntoll {node} {next} 0\n"
        )?;
    }
    for origin in origins {
        write!(text, "pair {origin} {links} 1\n")?;
    }
    Ok(text)
}

/// The useful covers of an instance whose commodities have toll-free walks.
fn covers(alloc: Global, instance: &Instance) -> Result<Vec<Cover>, CoversRefusal> {
    match free_and_zero(alloc, instance) {
        Ok(spans) => useful_all(alloc, instance, &spans),
        Err(_) => Err(CoversRefusal::Memory),
    }
}

/// The useful cover of the first commodity.
fn first(alloc: Global, instance: &Instance) -> Result<Cover, LabelRefusal> {
    let potentials = distances_to(alloc, instance, instance.commodities()[0].destination, true)?;
    match free_and_zero(alloc, instance) {
        Ok(spans) => useful(alloc, instance, 0, spans[0], &potentials),
        Err(_) => Err(LabelRefusal::Memory),
    }
}

/// What is said of the useful cover of each commodity of a network.
fn covers_text(alloc: Global, network: &str) -> Result<String, Fail> {
    let mut text = String::new(alloc);
    for cover in &covers(alloc, &instance_of(alloc, network)?)? {
        write!(text, "{}\n", cover_text(alloc, cover)?)?;
    }
    Ok(text)
}

/// What is said of the useful cover of the first commodity of a network.
fn first_text(alloc: Global, network: &str) -> Result<String, Fail> {
    let cover = first(alloc, &instance_of(alloc, network)?)?;
    Ok(format!(in alloc; "{}\n", cover_text(alloc, &cover)?)?)
}

/// Two parallel toll arcs, then a loop with a toll and one without, then a cycle that costs nothing.
const LOOPS: &str =
    "npp 1\nnode 0\nnode 1\nnode 2\nnode 3\nfree 0 3 10\ntoll 0 1 2\ntoll 0 1 2\nfree 1 1 0\ntoll 1 1 0\nfree 1 2 0\nfree 2 1 0\nfree 2 3 1\npair 0 3 1\n";

/// Toll-free arcs to node 1 of which the first is the cheapest, toll arcs there that cost no less than it, and two that cost
/// less, with a loop.
const NEEDED: &str =
    "npp 1\nnode 0\nnode 1\nnode 2\nfree 0 2 9\nfree 0 1 3\nfree 0 1 3\nfree 0 1 5\ntoll 0 1 3\ntoll 0 1 4\ntoll 0 1 1\ntoll 0 1 1\nfree 1 1 0\ntoll 1 2 1\npair 0 2 1\n";

/// Networks of one commodity. The second toll on the detour is needless.
const COVERS: &[(&str, &str)] = &[
    (
        DETOUR,
        "3 labels, 1 at 2 by [ArcId(1), ArcId(2)], 0 at 10 by [ArcId(0)]\n",
    ),
    (
        LOOPS,
        "7 labels, 1 at 3 by [ArcId(1), ArcId(5), ArcId(7)], 2 at 3 by [ArcId(2), ArcId(5), ArcId(7)], 0 at 10 by [ArcId(0)]\n",
    ),
    (
        NEEDED,
        "7 labels, 20 at 2 by [ArcId(6), ArcId(9)], 24 at 2 by [ArcId(7), ArcId(9)], 16 at 4 by [ArcId(1), ArcId(9)], 0 at 9 by [ArcId(0)]\n",
    ),
];

#[test]
fn useful_paths_stand_in_their_order(rt: HostRuntime) -> Result<(), Fail> {
    let alloc = rt.alloc();
    for (network, want) in COVERS {
        let (one, all) = (first_text(alloc, network)?, covers_text(alloc, network)?);
        assert_eq!(rt; [one.as_str(), all.as_str()], [*want; 2]);
    }
    Ok(())
}

/// The detour with a commodity from node 1, and then one from node 0.
const TWO_PAIRS: &str =
    "npp 1\nnode 0\nnode 1\nnode 2\nfree 0 2 10\ntoll 0 1 1\nfree 1 2 1\ntoll 1 2 1\npair 1 2 1\npair 0 2 1\n";

#[test]
fn each_commodity_has_its_cover(rt: HostRuntime) -> Result<(), Fail> {
    let got = covers_text(rt.alloc(), TWO_PAIRS)?;
    assert_eq!(rt;
        got.as_str(),
        "0 labels, 0 at 1 by [ArcId(2)]\n3 labels, 1 at 2 by [ArcId(1), ArcId(2)], 0 at 10 by [ArcId(0)]\n"
    );
    Ok(())
}

/// Chains by their links and the origins of their commodities, and how their covers are refused.
const LONG_CHAINS: &[(u32, &[u32], CoversRefusal)] = &[
    (11, &[0], CoversRefusal::TooManyPaths(0)),
    (11, &[1, 1], CoversRefusal::TooManyPaths(1)),
    (16, &[15, 0], CoversRefusal::TooManyLabels(1)),
    (16, &[0], CoversRefusal::TooManyLabels(0)),
];

/// How the covers of a chain of fewer than 1,000 links are refused.
fn chain_refusal(
    alloc: Global,
    links: u32,
    origins: &[u32],
) -> Result<Option<CoversRefusal>, Fail> {
    if links >= 1000 {
        return Err("too long a chain")?;
    }
    let text = chain(alloc, links, origins)?;
    Ok(covers(alloc, &instance_of(alloc, text.as_str())?).err())
}

#[test]
fn chains_pass_the_limits(rt: HostRuntime) -> Result<(), Fail> {
    let alloc = rt.alloc();
    for (links, origins, want) in LONG_CHAINS {
        let refusal = chain_refusal(alloc, *links, origins)?;
        assert_eq!(rt; refusal, Some(*want));
    }
    let text = chain(alloc, 11, &[0])?;
    let cover = first(alloc, &instance_of(alloc, text.as_str())?)?;
    assert_eq!(rt; cover.paths().len(), 2048);
    Ok(())
}

/// The draft of a cover.
fn draft_of(alloc: Global, cover: &Cover) -> Result<CoverDraft, AllocError> {
    let labels = cover.labels();
    let mut steps = Vec::new(alloc);
    for label in labels {
        if let Some(arc) = label.last {
            steps.push(StepDraft {
                parent: label.parent,
                arc,
            })?;
        }
    }
    let mut arcs = Vec::new(alloc);
    if let Some(last) = cover.paths().last() {
        arcs.extend_from_slice(&last.walk.arcs)?;
    }
    Ok(CoverDraft {
        started: !labels.is_empty(),
        steps,
        free: Walk { arcs },
    })
}

/// The cover that is checked from a draft for the first commodity.
fn checked(alloc: Global, instance: &Instance, draft: CoverDraft) -> Result<Cover, CoverFault> {
    let potentials = distances_to(alloc, instance, instance.commodities()[0].destination, true)?;
    match free_and_zero(alloc, instance) {
        Ok(spans) => check_cover(alloc, instance, 0, spans[0], &potentials, draft),
        Err(_) => Err(CoverFault::Memory),
    }
}

#[test]
fn the_draft_of_a_useful_cover_gives_it_again(rt: HostRuntime) -> Result<(), Fail> {
    let alloc = rt.alloc();
    let text = chain(alloc, 6, &[0])?;
    let net = instance_of(alloc, text.as_str())?;
    let cover = first(alloc, &net)?;
    let again = checked(alloc, &net, draft_of(alloc, &cover)?)?;
    let same = (
        again.labels() == cover.labels(),
        again.paths() == cover.paths(),
    );
    assert_eq!(rt; (again.labels().len(), same), (126, (true, true)));
    Ok(())
}

/// 128 parallel toll arcs, of which the last alone gains something.
fn many_tolls(alloc: Global) -> Result<String, AllocError> {
    let mut text = String::from_str(alloc, "npp 1\nnode 0\nnode 1\nfree 0 1 10\n")?;
    for _ in 0..127 {
        text.push_str("toll 0 1 10\n")?;
    }
    text.push_str("toll 0 1 3\npair 0 1 1\n")?;
    Ok(text)
}

#[test]
fn the_last_of_many_tolls_is_listed(rt: HostRuntime) -> Result<(), Fail> {
    let text = many_tolls(rt.alloc())?;
    let got = first_text(rt.alloc(), text.as_str())?;
    assert_eq!(rt;
        got.as_str(),
        "2 labels, 170141183460469231731687303715884105728 at 3 by [ArcId(128)], 0 at 10 by [ArcId(0)]\n"
    );
    Ok(())
}
