//! Reports of both forms.

use crate::{Report, report_text, write_fraction};
use npp_frac::{Exact, Frac128, parse_fraction};
use npp_net::{ArcId, Commodity, Instance, Listed, NetArc, NodeId, Tolls};
use npp_tree::{PathLine, Status};
use std::alloc::Global;
use std::test::Fail;

const FREE: NetArc = NetArc {
    tail: NodeId(0),
    head: NodeId(1),
    cost: 10,
    toll: false,
    ceiling: None,
};

const PAIR: Commodity = Commodity {
    origin: NodeId(0),
    destination: NodeId(1),
    demand: 5,
};

// Two parallel roads, the second of which has a toll with this ceiling.
fn two_roads(alloc: Global, ceiling: Option<u32>) -> Result<Instance, Fail> {
    let toll = NetArc {
        cost: 2,
        toll: true,
        ceiling,
        ..FREE
    };
    let arcs = vec![in alloc; FREE, toll]?;
    let pairs = vec![in alloc; PAIR]?;
    Ok(Instance::new(alloc, 2, arcs, pairs)?)
}

// A report of a toll of 5/2 and a walk that pays it.
fn report(alloc: Global) -> Result<Report<Frac128>, Fail> {
    let half = parse_fraction(b"5/2").ok_or("a fraction")?;
    let path = PathLine {
        cost: 2,
        paid: half,
        arcs: Listed::of(vec![in alloc; ArcId(1)]?),
    };
    Ok(Report {
        status: Status::Budget,
        lower: half,
        upper: Frac128::of_whole(40),
        opened: 0,
        tolls: Tolls::of(vec![in alloc; half]?),
        paths: Listed::of(Vec::from_array(alloc, [path])?),
    })
}

#[test]
fn both_forms(rt: HostRuntime) -> Result<(), Fail> {
    let alloc = rt.alloc();
    let rows = [
        (
            None,
            "npp-certificate 1\nstatus budget\nwidth 128\nlower 5/2\nupper 40\nopened 0\ntoll 0 5/2\npath 0 2 5/2 1\n",
        ),
        (
            Some(20),
            "npp-certificate 2\nstatus budget\nwidth 128\nlower 5/2\nupper 40\nopened 0\ninstance 2 2 1 1\nlimit 0 20\ntoll 0 5/2\npath 0 2 5/2 1\n",
        ),
    ];
    for (ceiling, expected) in rows {
        let text = report_text(alloc, &two_roads(alloc, ceiling)?, &report(alloc)?)?;
        assert_eq!(rt; text.as_str(), expected);
    }
    Ok(())
}

#[test]
fn a_fraction_below_0(rt: HostRuntime) -> Result<(), Fail> {
    let alloc = rt.alloc();
    let mut text = String::from_str(alloc, "lower ")?;
    write_fraction(alloc, &mut text, Frac128::of_whole(-3))?;
    assert_eq!(rt; text.as_str(), "lower -3");
    Ok(())
}
