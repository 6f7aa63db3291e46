//! One instance, read back through every accessor, the refusals in their order, and sets and lists of tolls.

use npp_net::{
    ArcId, Commodity, Instance, Listed, NetArc, NetRefusal, NodeId, TollId, TollSet, Tolls,
    is_walk, walk_cost, walk_tolls,
};
use std::alloc::{AllocError, Global};
use std::test::Fail;

/// An arc by its tail, its head, its cost, whether it is a toll arc, and its ceiling.
type ArcRow = (u32, u32, u32, bool, Option<u32>);

/// A commodity by its origin, its destination and its demand.
type PairRow = (u32, u32, u32);

fn arcs_of(alloc: Global, rows: &[ArcRow]) -> Result<Vec<NetArc>, AllocError> {
    let mut arcs = Vec::new(alloc);
    for (tail, head, cost, toll, ceiling) in rows {
        arcs.push(NetArc {
            tail: NodeId(*tail),
            head: NodeId(*head),
            cost: *cost,
            toll: *toll,
            ceiling: *ceiling,
        })?;
    }
    Ok(arcs)
}

fn instance(
    alloc: Global,
    nodes: u32,
    rows: &[ArcRow],
    pair: PairRow,
) -> Result<Instance, NetRefusal> {
    let (origin, destination, demand) = pair;
    let commodity = Commodity {
        origin: NodeId(origin),
        destination: NodeId(destination),
        demand,
    };
    let arcs = arcs_of(alloc, rows)?;
    Instance::new(alloc, nodes, arcs, vec![in alloc; commodity]?)
}

/// What the accessors say of the whole instance and of its tolls.
fn tolls_text(alloc: Global, net: &Instance) -> Result<String, AllocError> {
    let demand = net.commodities()[0].demand;
    let mut text = format!(in alloc; "{} nodes, demand {demand}", net.nodes())?;
    for number in 0..net.tolls() {
        let toll = TollId(number);
        let (arc, ceiling) = (net.arc_of(toll), net.ceiling(toll));
        write!(text, ", {arc:?} within {ceiling:?}")?;
    }
    Ok(text)
}

/// The toll number of each arc.
fn numbers_text(alloc: Global, net: &Instance) -> Result<String, AllocError> {
    let mut text = String::new(alloc);
    for arc in 0..net.arcs().len() as u32 {
        write!(text, "{:?} ", net.toll_of(ArcId(arc)))?;
    }
    Ok(text)
}

/// The arcs that leave and enter each node.
fn ends_text(alloc: Global, net: &Instance) -> Result<String, AllocError> {
    let mut text = String::new(alloc);
    for node in 0..net.nodes() {
        let node = NodeId(node);
        let (leaving, entering) = (net.leaving(node), net.entering(node));
        write!(text, "{leaving:?} {entering:?}\n")?;
    }
    Ok(text)
}

const FOUR_ARCS: &[ArcRow] = &[
    (0, 2, 10, false, None),
    (0, 1, 1, true, None),
    (1, 2, 1, false, None),
    (1, 2, 1, true, Some(7)),
];

const FOUR_ENDS: &str = "[ArcId(0), ArcId(1)] []
[ArcId(2), ArcId(3)] [ArcId(1)]
[] [ArcId(0), ArcId(2), ArcId(3)]
";

#[test]
fn an_instance_is_read_back(rt: HostRuntime) -> Result<(), Fail> {
    let alloc = rt.alloc();
    let net = instance(alloc, 3, FOUR_ARCS, (0, 2, 1))?;
    let tolls = tolls_text(alloc, &net)?;
    let numbers = numbers_text(alloc, &net)?;
    let ends = ends_text(alloc, &net)?;
    let got = [tolls.as_str(), numbers.as_str(), ends.as_str()];
    let want = [
        "3 nodes, demand 1, ArcId(1) within None, ArcId(3) within Some(7)",
        "None Some(TollId(0)) None Some(TollId(1)) ",
        FOUR_ENDS,
    ];
    assert_eq!(rt; got, want);
    Ok(())
}

#[test]
fn walks_are_measured(rt: HostRuntime) -> Result<(), Fail> {
    let rows = [(0, 1, 3, true, None), (1, 0, 4, false, None)];
    let net = instance(rt.alloc(), 2, &rows, (0, 1, 1))?;
    assert_eq!(rt; net.arcs().len(), 2);
    let walk = [ArcId(0), ArcId(1), ArcId(0)];
    let are_walks = (
        is_walk(&net, NodeId(0), NodeId(1), &walk),
        is_walk(&net, NodeId(0), NodeId(0), &walk),
        is_walk(&net, NodeId(1), NodeId(1), &[]),
    );
    let sizes = (walk_cost(&net, &walk), walk_tolls(&net, &walk, TollId(0)));
    assert_eq!(rt; (are_walks, sizes), ((true, false, true), (10, 2)));
    Ok(())
}

/// Instances of one arc and one commodity, each by its nodes, with their refusals.
const ONE_ARC: &[(u32, ArcRow, PairRow, Option<NetRefusal>)] = &[
    (2, (0, 1, 1, false, None), (0, 1, 1), None),
    (
        1001,
        (0, 2000, 1, false, None),
        (0, 1, 1),
        Some(NetRefusal::TooManyNodes),
    ),
    (
        2,
        (0, 2, 1_000_001, false, None),
        (0, 1, 1),
        Some(NetRefusal::UnknownNode),
    ),
    (
        2,
        (0, 1, 1_000_001, false, None),
        (0, 1, 1),
        Some(NetRefusal::NumberTooLarge),
    ),
    (
        2,
        (0, 1, 1, false, Some(1_000_000_001)),
        (0, 1, 1),
        Some(NetRefusal::NumberTooLarge),
    ),
    (
        2,
        (0, 1, 1, false, Some(0)),
        (0, 1, 1),
        Some(NetRefusal::CeilingOnFree),
    ),
    (2, (0, 1, 1, true, Some(1_000_000_000)), (0, 1, 1), None),
    (
        2,
        (0, 1, 1, false, None),
        (0, 2, 0),
        Some(NetRefusal::UnknownNode),
    ),
    (
        2,
        (0, 1, 1, false, None),
        (0, 0, 1_000_001),
        Some(NetRefusal::NumberTooLarge),
    ),
    (
        2,
        (0, 1, 1, false, None),
        (1, 1, 0),
        Some(NetRefusal::SameEnds),
    ),
    (
        2,
        (0, 1, 1, false, None),
        (0, 1, 0),
        Some(NetRefusal::ZeroDemand),
    ),
];

#[test]
fn the_first_broken_limit_is_named(rt: HostRuntime) {
    for (nodes, arc, pair, want) in ONE_ARC {
        let refused = instance(rt.alloc(), *nodes, &[*arc], *pair).err();
        assert_eq!(rt; &refused, want);
    }
}

/// How many tolls an instance of so many equal toll arcs has.
fn equal_tolls(alloc: Global, count: usize) -> Result<u32, NetRefusal> {
    let rows = vec![in alloc; (0, 1, 1, true, None); count]?;
    Ok(instance(alloc, 2, &rows, (0, 1, 1))?.tolls())
}

#[test]
fn toll_arcs_are_limited(rt: HostRuntime) {
    let got = [equal_tolls(rt.alloc(), 128), equal_tolls(rt.alloc(), 129)];
    assert_eq!(rt; got, [Ok(128), Err(NetRefusal::TooManyTolls)]);
}

#[test]
fn toll_sets(rt: HostRuntime) {
    let small = TollSet::empty().with(TollId(3));
    let large = small.with(TollId(127)).with(TollId(3));
    assert_eq!(rt; (small.number(), large.size()), (8, 2));
    let has = (large.has(TollId(127)), large.has(TollId(0)));
    let within = (small.is_within(large), large.is_within(small));
    assert_eq!(rt; (has, within), ((true, false), (true, false)));
    let mut tolls = large.tolls();
    let listed = [tolls.next(), tolls.next(), tolls.next()];
    assert_eq!(rt; listed, [Some(TollId(3)), Some(TollId(127)), None]);
}

/// The tolls 5 and another.
fn two_tolls(alloc: Global, second: u32) -> Result<Tolls<u32>, AllocError> {
    Ok(Tolls::of(vec![in alloc; 5, second]?))
}

#[test]
fn tolls_are_a_list(rt: HostRuntime) -> Result<(), Fail> {
    let tolls = two_tolls(rt.alloc(), 7)?;
    let same = two_tolls(rt.alloc(), 7)?;
    let other = two_tolls(rt.alloc(), 8)?;
    assert_eq!(rt; (tolls == same, tolls == other), (true, false));
    assert_eq!(rt; tolls.values(), [5, 7].as_slice());
    let (entries, again) = (
        Listed::of(tolls.into_values()),
        Listed::of(same.into_values()),
    );
    assert_eq!(rt; (entries.len(), entries == again), (2, true));
    assert_eq!(rt; entries.into_entries().as_slice(), [5, 7].as_slice());
    Ok(())
}
