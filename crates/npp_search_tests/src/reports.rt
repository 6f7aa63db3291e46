//! Reports of searches that end with the optimum, and of instances on which no tolls earn anything.

use crate::found::report;
use npp_fixtures::THREE_PAIRS;
use npp_frac::{Frac32, Frac64, Frac128};
use npp_search::{BestBound, Depth};
use std::alloc::Global;
use std::fmt::Write;
use std::test::Fail;

/// One toll arc for three commodities: 1,000,000 travellers turn away above a toll of 1, another 900,000 above 2, and one above
/// 1,500,000.
pub(crate) const ONE_TOLL: &str =
    "npp 1\nnode a\nnode b\nnode o\nnode d\nnode p\nnode q\ntoll a b 0\nfree o a 0\nfree o d 1000000\nfree d b 500000\nfree p a 0\nfree p b 1\nfree q a 0\nfree q b 2\npair p b 1000000\npair q b 900000\npair o b 1\n";

/// The lines of the three pairs behind the number of opened nodes.
const THREE_PAIRS_PAY: &str = "toll 0 3\npath 0 2 3 1 0\npath 1 2 3 3 0\npath 2 2 3 5 0\n";

/// The report of a search with the best bound first.
fn report_64(alloc: Global, text: &str, budget: u32) -> Result<String, Fail> {
    report::<Frac64, BestBound>(alloc, text, budget, &mut BestBound)
}

/// With a budget that reaches twice the number of choices less one, 15, the optimum has to come; with both pickers.
#[test]
fn the_three_pairs(rt: HostRuntime) -> Result<(), Fail> {
    let alloc = rt.alloc();
    let rows = [
        (0, "budget", "23", 0),
        (1, "budget", "78/5", 1),
        (15, "optimal", "15", 2),
        (1000, "optimal", "15", 2),
    ];
    for (budget, status, upper, opened) in rows {
        let want = format!(in alloc;
            "npp-certificate 1\nstatus {status}\nwidth 64\nlower 15\nupper {upper}\nopened {opened}\n{THREE_PAIRS_PAY}"
        )?;
        assert_eq!(rt; report_64(alloc, THREE_PAIRS, budget)?, want);
        let deep = report::<Frac64, Depth>(alloc, THREE_PAIRS, budget, &mut Depth)?;
        assert_eq!(rt; deep, want);
    }
    Ok(())
}

/// Solvers in floating point call 2,800,001 optimal here.
#[test]
fn one_toll_is_shared(rt: HostRuntime) -> Result<(), Fail> {
    let want =
        "npp-certificate 1\nstatus optimal\nwidth 64\nlower 1900001\nupper 1900001\nopened 3\ntoll 0 1\npath 0 0 1 4 0\npath 1 0 1 6 0\npath 2 0 1 1 0\n";
    let found = report_64(rt.alloc(), ONE_TOLL, 1000)?;
    assert_eq!(rt; found.as_str(), want);
    let deep = report::<Frac64, Depth>(rt.alloc(), ONE_TOLL, 1000, &mut Depth)?;
    assert_eq!(rt; deep.as_str(), want);
    Ok(())
}

/// A toll arc of cost 0 beside a toll-free one of cost 1,000,000, for 1,000,000 travellers.
#[test]
fn large_numbers_at_128_bits(rt: HostRuntime) -> Result<(), Fail> {
    let text = "npp 1\nnode a\nnode b\nfree a b 1000000\ntoll a b 0\npair a b 1000000\n";
    let want =
        "npp-certificate 1\nstatus optimal\nwidth 128\nlower 1000000000000\nupper 1000000000000\nopened 0\ntoll 0 1000000\npath 0 0 1000000 1\n";
    let found = report::<Frac128, BestBound>(rt.alloc(), text, 1000, &mut BestBound)?;
    assert_eq!(rt; found.as_str(), want);
    let narrow =
        "npp-certificate 1\nstatus overflow\nwidth 32\nlower 0\nupper 1000000000000\nopened 2\ntoll 0 0\npath 0 0 0 1\n";
    let found = report::<Frac32, BestBound>(rt.alloc(), text, 1000, &mut BestBound)?;
    assert_eq!(rt; found.as_str(), narrow);
    Ok(())
}

/// A toll arc beside a toll-free one of cost 10, with the ceilings 3, 20, none and 0.
#[test]
fn ceilings(rt: HostRuntime) -> Result<(), Fail> {
    let rows = [
        (
            "npp 2\nnode a\nnode b\nfree a b 10\ntoll a b 2 3\npair a b 5\n",
            "npp-certificate 2\nstatus optimal\nwidth 64\nlower 15\nupper 15\nopened 1\ninstance 2 2 1 1\nlimit 0 3\ntoll 0 3\npath 0 2 3 1\n",
        ),
        (
            "npp 2\nnode a\nnode b\nfree a b 10\ntoll a b 2 20\npair a b 5\n",
            "npp-certificate 2\nstatus optimal\nwidth 64\nlower 40\nupper 40\nopened 0\ninstance 2 2 1 1\nlimit 0 20\ntoll 0 8\npath 0 2 8 1\n",
        ),
        (
            "npp 2\nnode a\nnode b\nfree a b 10\ntoll a b 2 -\npair a b 5\n",
            "npp-certificate 1\nstatus optimal\nwidth 64\nlower 40\nupper 40\nopened 0\ntoll 0 8\npath 0 2 8 1\n",
        ),
        (
            "npp 2\nnode a\nnode b\nfree a b 10\ntoll a b 2 0\npair a b 5\n",
            "npp-certificate 2\nstatus optimal\nwidth 64\nlower 0\nupper 0\nopened 1\ninstance 2 2 1 1\nlimit 0 0\ntoll 0 0\npath 0 2 0 1\n",
        ),
    ];
    for (text, want) in rows {
        assert_eq!(rt; report_64(rt.alloc(), text, 1000)?.as_str(), want);
    }
    Ok(())
}

/// There is no toll arc; it is as dear as the toll-free way; no walk goes over it.
#[test]
fn no_tolls_earn_anything(rt: HostRuntime) -> Result<(), Fail> {
    let rows = [
        (
            "npp 1\nnode a\nnode b\nfree a b 4\npair a b 1\n",
            "npp-certificate 1\nstatus optimal\nwidth 64\nlower 0\nupper 0\nopened 0\npath 0 4 0 0\n",
        ),
        (
            "npp 1\nnode a\nnode b\nfree a b 5\ntoll a b 5\npair a b 3\n",
            "npp-certificate 1\nstatus optimal\nwidth 64\nlower 0\nupper 0\nopened 0\ntoll 0 0\npath 0 5 0 0\n",
        ),
        (
            "npp 1\nnode a\nnode b\nnode c\nfree a b 5\ntoll b c 1\ntoll a c 0\npair a b 3\n",
            "npp-certificate 1\nstatus optimal\nwidth 64\nlower 0\nupper 0\nopened 0\ntoll 0 0\ntoll 1 0\npath 0 5 0 0\n",
        ),
    ];
    for (text, want) in rows {
        assert_eq!(rt; report_64(rt.alloc(), text, 1000)?.as_str(), want);
    }
    Ok(())
}

/// A toll-free arc of cost 200 and beside it the most toll arcs that there may be, of costs 0 to 127: the toll of each makes up the
/// difference.
#[test]
fn the_most_toll_arcs(rt: HostRuntime) -> Result<(), Fail> {
    let alloc = rt.alloc();
    let mut text = String::from_str(alloc, "npp 1\nnode a\nnode b\nfree a b 200\n")?;
    let mut want = String::from_str(
        alloc,
        "npp-certificate 2\nstatus optimal\nwidth 64\nlower 200\nupper 200\nopened 0\ninstance 2 129 128 1\n",
    )?;
    for cost in 0..128 {
        writeln!(text, "toll a b {cost}")?;
        writeln!(want, "limit {cost} -")?;
    }
    for cost in 0..128 {
        writeln!(want, "toll {cost} {}", 200u32.saturating_sub(cost))?;
    }
    text.push_str("pair a b 1\n")?;
    want.push_str("path 0 0 200 1\n")?;
    assert_eq!(rt; report_64(alloc, &text, 1000)?, want);
    Ok(())
}
