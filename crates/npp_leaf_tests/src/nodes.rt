//! Nodes whose programs are quiet at each width: each kind of evidence, with cuts and without.

use crate::found::{Parts, expect};
use npp_fixtures::{Cuts, THREE_PAIRS};
use std::test::Fail;

/// All paths of the three commodities.
const ALL: Parts<'static> = &[&[0, 1], &[0, 1], &[0, 1]];

#[test]
fn nodes_of_three_pairs(rt: HostRuntime) -> Result<(), Fail> {
    let rows: [(Parts, &str); 6] = [
        (ALL, "dual 78/5 at 6 | 1 0 | 1 0 | 2/5 3/5"),
        (&[&[0, 1], &[0, 1], &[0]], "dual 15 at 3 | 1 0 | 1 0 | 1"),
        (&[&[0, 1], &[1], &[1]], "dual 8 at 8 | 1 0 | 1 | 1"),
        (&[&[0], &[1], &[0, 1]], "dual 48/5 at 6 | 1 | 1 | 2/5 3/5"),
        (&[&[0], &[0], &[0]], "inverse 15 earns 15"),
        (&[&[1], &[0], &[0]], "none empty"),
    ];
    for (parts, want) in rows {
        expect(&rt, rt.alloc(), THREE_PAIRS, parts, &[], want, want)?;
    }
    Ok(())
}

/// A cut that nothing meets leaves no point, one that all meet changes nothing, one that the point does not meet lowers the value,
/// and a full choice has no cuts.
#[test]
fn nodes_with_cuts(rt: HostRuntime) -> Result<(), Fail> {
    let never: Cuts = &[(&[], (-1, 1))];
    let rows: [(Parts, Cuts, &str); 7] = [
        (ALL, never, "farkas empty"),
        (
            ALL,
            &[(&[], (1, 1))],
            "dual 78/5 at 6 | 1 0 | 1 0 | 2/5 3/5",
        ),
        (
            ALL,
            &[(&[(2, 0, (1, 1))], (0, 1))],
            "dual 12 at 6 | 1 0 | 1 0 | 0 1",
        ),
        (
            ALL,
            &[(&[(0, 0, (1, 1))], (1, 2))],
            "dual 58/5 at 6 | 1/2 1/2 | 1 0 | 2/5 3/5",
        ),
        (
            ALL,
            &[(&[(0, 0, (1, 1)), (0, 1, (1, 1))], (0, 1))],
            "farkas empty",
        ),
        (&[&[0], &[0], &[0]], never, "inverse 15 earns 15"),
        (&[&[1], &[0], &[0]], never, "none empty"),
    ];
    for (parts, cuts, want) in rows {
        expect(&rt, rt.alloc(), THREE_PAIRS, parts, cuts, want, want)?;
    }
    Ok(())
}
