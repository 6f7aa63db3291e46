//! Trees of searches that end before the optimum is known.

use crate::found::tree;
use crate::reports::ONE_TOLL;
use npp_fixtures::THREE_PAIRS;
use npp_frac::{Frac32, Frac64};
use npp_search::{BestBound, Depth};
use std::test::Fail;

/// A toll arc of cost 0 beside a toll-free one of cost 1,000,000, for 1,000,000 travellers.
const MANY: &str = "npp 1\nnode a\nnode b\nfree a b 1000000\ntoll a b 0\npair a b 1000000\n";

/// The same for two commodities, of which the first has a few travellers.
const FEW_AND_MANY: &str =
    "npp 1\nnode a\nnode b\nnode c\nnode d\nfree a b 10\ntoll a b 2\nfree c d 1000000\ntoll c d 0\npair a b 5\npair c d 1000000\n";

/// The budget is spent while a node waits.
#[test]
fn the_budget_is_spent(rt: HostRuntime) -> Result<(), Fail> {
    let alloc = rt.alloc();
    let want = "budget 15 78/5 1 at 3\ndual 78/5 split 2 1\nopen 14\nopen 78/5\n";
    let found = tree::<Frac64, BestBound>(alloc, THREE_PAIRS, 1, &mut BestBound)?;
    assert_eq!(rt; found.as_str(), want);
    let found = tree::<Frac32, Depth>(alloc, THREE_PAIRS, 1, &mut Depth)?;
    assert_eq!(rt; found.as_str(), want);
    let found = tree::<Frac32, BestBound>(alloc, THREE_PAIRS, 0, &mut BestBound)?;
    assert_eq!(rt; found.as_str(), "budget 15 23 0 at 3\nopen 23\n");
    Ok(())
}

/// The program of a choice has a number beyond 32 bits: its leaf stands above the lower value, with that mark. At 64 bits it is solved.
#[test]
fn an_overflow_has_its_cause(rt: HostRuntime) -> Result<(), Fail> {
    let alloc = rt.alloc();
    let found = tree::<Frac32, BestBound>(alloc, MANY, 1000, &mut BestBound)?;
    assert_eq!(rt;
        found.as_str(),
        "overflow 0 1000000000000 2 at 0\nbasic Overflow { pivot: 4, step: Pivot, row: 9, column: 2 } 1000000000000 split 0 0\nbasic Overflow { pivot: 1, step: Pivot, row: 4, column: 5 } 1000000000000\nopen 0\n"
    );
    let found = tree::<Frac64, BestBound>(alloc, MANY, 1000, &mut BestBound)?;
    assert_eq!(rt;
        found.as_str(),
        "optimal 1000000000000 1000000000000 0 at 1000000\nopen 1000000000000\n"
    );
    Ok(())
}

/// Each relaxation has a mark at 32 bits, and so has the program of one choice; the others are solved all the same.
#[test]
fn marks_at_each_relaxation(rt: HostRuntime) -> Result<(), Fail> {
    let want =
        "overflow 1900001 2800000 10 at 1\nbasic Overflow { pivot: 6, step: Pivot, row: 23, column: 6 } 4300000 split 0 0\nbasic Overflow { pivot: 6, step: Pivot, row: 23, column: 5 } 4300000 split 1 0\nbasic Overflow { pivot: 6, step: Pivot, row: 23, column: 4 } 4300000 split 2 0\ninverse 1900001\nbasic Overflow { pivot: 2, step: Pivot, row: 8, column: 9 } 2800000\nbasic Overflow { pivot: 5, step: Pivot, row: 0, column: 27 } 2500000 split 2 0\nnone empty\nopen 1000000\nbasic Overflow { pivot: 5, step: Pivot, row: 0, column: 28 } 3300000 split 1 0\nbasic Overflow { pivot: 5, step: Pivot, row: 0, column: 27 } 3300000 split 2 0\ninverse 1800002\nopen 1800000\nopen 1500000\n";
    let found = tree::<Frac32, BestBound>(rt.alloc(), ONE_TOLL, 1000, &mut BestBound)?;
    assert_eq!(rt; found.as_str(), want);
    let found = tree::<Frac32, Depth>(rt.alloc(), ONE_TOLL, 1000, &mut Depth)?;
    assert_eq!(rt; found.as_str(), want);
    Ok(())
}
