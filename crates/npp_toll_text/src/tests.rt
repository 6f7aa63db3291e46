//! Worked examples.

use crate::{TollsRefusal, read_tolls};
use npp_frac::print_fraction;
use npp_net::{Commodity, Instance, NetArc, NetRefusal, NodeId};
use std::alloc::Global;
use std::test::Fail;

fn arc(cost: u32, toll: bool, ceiling: Option<u32>) -> NetArc {
    NetArc {
        tail: NodeId(0),
        head: NodeId(1),
        cost,
        toll,
        ceiling,
    }
}

/// A toll-free arc from node 0 to node 1, a toll arc without a ceiling, and one whose ceiling is 20.
fn instance(alloc: Global) -> Result<Instance, NetRefusal> {
    let arcs = vec![in alloc;
        arc(10, false, None),
        arc(2, true, None),
        arc(4, true, Some(20)),
    ]?;
    let commodity = Commodity {
        origin: NodeId(0),
        destination: NodeId(1),
        demand: 1,
    };
    let commodities = vec![in alloc; commodity]?;
    Instance::new(alloc, 2, arcs, commodities)
}

/// What reading a text gives: the tolls, or the refused line.
fn answer(alloc: Global, instance: &Instance, text: &str) -> Result<String, Fail> {
    let mut words = String::new(alloc);
    match read_tolls(alloc, instance, text.as_bytes()) {
        Ok(tolls) => {
            for toll in tolls.values() {
                let toll = print_fraction(alloc, *toll)?;
                write!(words, "{} ", toll.as_str())?;
            }
        }
        Err(TollsRefusal::Line(line)) => write!(words, "line {line}")?,
        Err(TollsRefusal::Memory) => write!(words, "no memory")?,
    }
    Ok(words)
}

#[test]
fn reads_and_refuses(rt: HostRuntime) -> Result<(), Fail> {
    let alloc = rt.alloc();
    let instance = instance(alloc)?;
    let cases = [
        ("npp-tolls 1\ntoll 0 8\ntoll 1 5\n", "8 5 "),
        ("npp-tolls 1\ntoll 0 1/2\ntoll 1 20\n", "1/2 20 "),
        (
            "npp-tolls 1\ntoll 0 170141183460469231731687303715884105727\ntoll 1 0\n",
            "170141183460469231731687303715884105727 0 ",
        ),
        ("", "line 1"),
        ("npp-tolls 2\ntoll 0 8\ntoll 1 5\n", "line 1"),
        ("npp-tolls 1", "line 1"),
        ("npp-tolls 1\r\ntoll 0 8\r\ntoll 1 5\r\n", "line 1"),
        ("npp-tolls 1\n", "line 2"),
        ("npp-tolls 1\ntoll 0 16/2\ntoll 1 5\n", "line 2"),
        ("npp-tolls 1\ntoll 0 -1\ntoll 1 5\n", "line 2"),
        ("npp-tolls 1\ntoll 0 -0\ntoll 1 5\n", "line 2"),
        ("npp-tolls 1\ntoll 0 007\ntoll 1 5\n", "line 2"),
        ("npp-tolls 1\ntoll 0 1/1\ntoll 1 5\n", "line 2"),
        (
            "npp-tolls 1\ntoll 0 170141183460469231731687303715884105728\ntoll 1 5\n",
            "line 2",
        ),
        ("npp-tolls 1\ntoll 1 5\ntoll 0 8\n", "line 2"),
        ("npp-tolls 1\ntoll 00 8\ntoll 1 5\n", "line 2"),
        ("npp-tolls 1\ntoll 0  8\ntoll 1 5\n", "line 2"),
        ("npp-tolls 1\ntoll 0 8 \ntoll 1 5\n", "line 2"),
        ("npp-tolls 1\ntoll 0\ntoll 1 5\n", "line 2"),
        ("npp-tolls 1\ntoll 0 8\n", "line 3"),
        ("npp-tolls 1\ntoll 0 8\ntoll 1 5", "line 3"),
        ("npp-tolls 1\ntoll 0 8\ntoll 1 41/2\n", "line 3"),
        ("npp-tolls 1\ntoll 0 8\n\ntoll 1 5\n", "line 3"),
        ("npp-tolls 1\ntoll 0 8\ntoll 1 5\ntoll 2 1\n", "line 4"),
        ("npp-tolls 1\ntoll 0 8\ntoll 1 5\n\n", "line 4"),
        ("npp-tolls 1\ntoll 0 8\ntoll 1 5\nx", "line 4"),
    ];
    for (text, want) in cases {
        let got = answer(alloc, &instance, text)?;
        assert_eq!(rt; got.as_str(), want);
    }
    Ok(())
}
