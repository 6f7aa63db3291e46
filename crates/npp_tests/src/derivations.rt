//! Rows derived from others, and why derivations are refused, on the three commodities.

use npp_fixtures::{
    Cuts, Named, Number, THREE_PAIRS, are_cuts, covers_of, cuts_of, instance_of, multipliers_of,
};
use npp_frac::{Exact, Frac32, Frac128, Op, Overflow, print_fraction};
use npp_net::Listed;
use npp_rows::{
    CutFault, CutRow, Derivation, Multiplier, PathTable, RelaxationIndex, RowName, check_derivation,
};
use std::alloc::Global;
use std::process::Abort;
use std::test::Fail;

/// A derivation, written for every width.
#[derive(Clone, Copy)]
enum Plan<'a> {
    /// Of the paths `k p l q`.
    Conflict(u32, u32, u32, u32, Named<'a>),
    /// Of the path `k p` with the commodity `l`.
    Pair(u32, u32, u32, &'a [u32]),
    Round(Named<'a>),
}

/// Rows with their multipliers at a width.
fn multipliers<N: Exact>(alloc: Global, named: Named) -> Result<Listed<Multiplier<N>>, Fail> {
    let list = multipliers_of(alloc, named).ok_or("no multipliers")?;
    Ok(Listed::of(list))
}

/// A derivation at a width.
fn derivation_of<N: Exact>(alloc: Global, plan: &Plan) -> Result<Derivation<N>, Fail> {
    match plan {
        Plan::Conflict(k, p, l, q, named) => Ok(Derivation::Conflict {
            k: *k,
            p: *p,
            l: *l,
            q: *q,
            y: multipliers(alloc, named)?,
        }),
        Plan::Pair(k, p, l, cuts) => Ok(Derivation::Pair {
            k: *k,
            p: *p,
            l: *l,
            cuts: Listed::of(Vec::from_slice(alloc, cuts)?),
        }),
        Plan::Round(named) => Ok(Derivation::Round {
            y: multipliers(alloc, named)?,
        }),
    }
}

/// A row as text: its terms, and its right side.
fn row_text<N: Exact>(alloc: Global, row: &CutRow<N>) -> Result<String, Fail> {
    let mut text = String::new(alloc);
    for term in row.terms.entries() {
        let value = print_fraction(alloc, term.value)?;
        write!(text, "{value} x({},{}) ", term.commodity, term.path)?;
    }
    write!(text, "<= {}", print_fraction(alloc, row.right)?)?;
    Ok(text)
}

/// An operation that does not fit, as text.
fn overflow_text<N: Exact>(alloc: Global, overflow: Overflow<N>) -> Result<String, Fail> {
    let left = print_fraction(alloc, overflow.left)?;
    let right = print_fraction(alloc, overflow.right)?;
    match overflow.op {
        Op::Add => Ok(format!(in alloc; "{left} + {right} does not fit")?),
        Op::Mul => Ok(format!(in alloc; "{left} * {right} does not fit")?),
        Op::Sub | Op::Div => Err("sums have no other operation")?,
    }
}

/// A fault as text.
fn fault_text<N: Exact>(alloc: Global, fault: CutFault<N>) -> Result<String, Fail> {
    let name = match fault {
        CutFault::BadName => "BadName",
        CutFault::BadOrder => "BadOrder",
        CutFault::NotPositive => "NotPositive",
        CutFault::Column => "Column",
        CutFault::NotBelowZero => "NotBelowZero",
        CutFault::TollColumn => "TollColumn",
        CutFault::NotAConflict(cut) => return Ok(format!(in alloc; "NotAConflict {cut}")?),
        CutFault::Overflow(overflow) => return overflow_text(alloc, overflow),
        CutFault::Memory => Err("no memory")?,
    };
    Ok(format!(in alloc; "{name}")?)
}

/// The row that a derivation gives after earlier rows, or why it is refused.
fn derived<N: Exact>(alloc: Global, earlier: Cuts, plan: &Plan) -> Result<String, Fail> {
    let net = instance_of(alloc, THREE_PAIRS)?;
    let covers = covers_of(alloc, &net)?;
    let covers = covers.as_slice();
    let earlier = cuts_of::<N>(alloc, earlier).ok_or("no cuts")?;
    let earlier = earlier.as_slice();
    if !are_cuts(covers, earlier) {
        return Err("no cuts")?;
    }
    let derivation = derivation_of(alloc, plan)?;
    match check_derivation(alloc, &net, covers, earlier, &derivation) {
        Ok(row) => row_text(alloc, &row),
        Err(fault) => fault_text(alloc, fault),
    }
}

/// Expects what a derivation gives at 32 and at 128 bits.
fn expect_at_widths(
    rt: &impl Abort,
    alloc: Global,
    earlier: Cuts,
    plan: &Plan,
    narrow: &str,
    wide: &str,
) -> Result<(), Fail> {
    let at_32 = derived::<Frac32>(alloc, earlier, plan)?;
    let at_128 = derived::<Frac128>(alloc, earlier, plan)?;
    assert_eq!(rt; [at_32.as_str(), at_128.as_str()], [narrow, wide]);
    Ok(())
}

/// Expects the same at both widths.
fn expect(
    rt: &impl Abort,
    alloc: Global,
    earlier: Cuts,
    plan: &Plan,
    want: &str,
) -> Result<(), Fail> {
    expect_at_widths(rt, alloc, earlier, plan, want, want)
}

/// Path 0 of the first commodity, where it takes path 1.
const FIRST: RowName = RowName::Follow(0, 0);

/// Path 1 of the third commodity, where it takes path 0.
const THIRD: RowName = RowName::Follow(2, 1);

/// The row that path 1 of the first commodity and path 0 of the third are not taken together.
const APART: &str = "1 x(0,1) 1 x(2,0) <= 1";

/// Rows that are to show that path 1 of the first commodity and path 0 of the third are not taken together.
const CONFLICTS: &[(Named<'static>, &str)] = &[
    (&[(FIRST, (1, 1)), (THIRD, (1, 1))], APART),
    (&[(FIRST, (1, 3)), (THIRD, (1, 2))], APART),
    (
        &[(RowName::Follow(1, 0), (1, 1)), (THIRD, (0, 1))],
        "BadName",
    ),
    (&[(THIRD, (1, 1)), (RowName::Cut(0), (1, 1))], "BadName"),
    (&[(THIRD, (1, 1)), (FIRST, (-1, 1))], "BadOrder"),
    (&[(FIRST, (1, 1)), (FIRST, (1, 1))], "BadOrder"),
    (&[(FIRST, (1, 1)), (THIRD, (0, 1))], "NotPositive"),
    (&[(FIRST, (-1, 1)), (THIRD, (1, 1))], "NotPositive"),
    (&[(FIRST, (2, 1)), (THIRD, (1, 1))], "Column"),
    (&[(FIRST, (1, 1)), (THIRD, (3, 1))], "NotBelowZero"),
    (
        &[(RowName::Cap(0), (1, 1)), (FIRST, (1, 1))],
        "NotBelowZero",
    ),
];

#[test]
fn conflicts(rt: HostRuntime) -> Result<(), Fail> {
    let alloc = rt.alloc();
    for (named, want) in CONFLICTS {
        expect(&rt, alloc, &[], &Plan::Conflict(0, 1, 2, 0, named), want)?;
    }
    Ok(())
}

/// Paths of which one is none, or whose commodities do not stand in order.
const NO_CONFLICTS: &[(u32, u32, u32, u32)] = &[
    (2, 0, 0, 1),
    (0, 2, 2, 0),
    (0, 1, 3, 0),
    (0, 1, 0, 0),
];

/// A proof of a conflict of path 1 of the first commodity and path 0 of the third.
const PROOF: Named<'static> = &[(FIRST, (1, 1)), (THIRD, (1, 1))];

#[test]
fn conflicts_of_no_paths(rt: HostRuntime) -> Result<(), Fail> {
    for (k, p, l, q) in NO_CONFLICTS {
        let plan = Plan::Conflict(*k, *p, *l, *q, PROOF);
        expect(&rt, rt.alloc(), &[], &plan, "BadName")?;
    }
    Ok(())
}

/// Two shares that are at most 1 together.
const BOTH_OF_SECOND: Cuts<'static> = &[
    (&[(0, 1, (1, 1)), (1, 0, (1, 1))], (1, 1)),
    (&[(0, 1, (1, 1)), (1, 1, (1, 1))], (1, 1)),
];

/// Rows `k p l` from earlier ones.
const PAIRS: &[(u32, u32, u32, &[u32], &str)] = &[
    (0, 1, 1, &[0, 1], "1 x(0,1) 1 x(1,0) 1 x(1,1) <= 1"),
    (0, 1, 0, &[0, 1], "BadName"),
    (0, 2, 1, &[0, 1], "BadName"),
    (0, 1, 3, &[0, 1], "BadName"),
    (0, 1, 1, &[0, 2], "BadName"),
    (0, 1, 1, &[1, 0], "BadOrder"),
    (0, 1, 1, &[0], "BadOrder"),
];

#[test]
fn pairs(rt: HostRuntime) -> Result<(), Fail> {
    let alloc = rt.alloc();
    for (k, p, l, cuts, want) in PAIRS {
        let plan = Plan::Pair(*k, *p, *l, cuts);
        expect(&rt, alloc, BOTH_OF_SECOND, &plan, want)?;
    }
    Ok(())
}

/// Two earlier rows, and the row of path 1 of the first commodity with the second commodity.
const OTHER_PAIRS: &[(Cuts<'static>, &str)] = &[
    (
        &[
            (&[(0, 1, (1, 1)), (1, 0, (1, 1))], (1, 1)),
            (&[(0, 1, (1, 1)), (1, 0, (1, 1))], (1, 1)),
        ],
        "1 x(0,1) 1 x(1,0) <= 1",
    ),
    (
        &[
            (&[(0, 1, (1, 1)), (1, 0, (1, 1))], (1, 1)),
            (&[(0, 1, (1, 1)), (2, 0, (1, 1))], (1, 1)),
        ],
        "NotAConflict 1",
    ),
    (
        &[
            (&[(0, 0, (1, 1)), (1, 0, (1, 1))], (1, 1)),
            (&[(0, 1, (1, 1)), (2, 0, (1, 1))], (1, 1)),
        ],
        "NotAConflict 0",
    ),
    (
        &[
            (&[(0, 1, (1, 1)), (1, 0, (1, 1))], (1, 1)),
            (&[(0, 1, (1, 1)), (1, 1, (2, 1))], (1, 1)),
        ],
        "NotAConflict 1",
    ),
    (
        &[
            (&[(0, 1, (1, 1)), (1, 0, (1, 1))], (1, 1)),
            (&[(0, 1, (1, 1)), (1, 1, (1, 1))], (2, 1)),
        ],
        "NotAConflict 1",
    ),
    (
        &[
            (&[(0, 1, (1, 1)), (1, 0, (1, 1))], (1, 1)),
            (&[(0, 1, (1, 1)), (1, 0, (1, 1)), (1, 1, (1, 1))], (1, 1)),
        ],
        "NotAConflict 1",
    ),
];

/// A choice that two rows name counts once, and only the very row of a conflict names a choice.
#[test]
fn pairs_after_other_rows(rt: HostRuntime) -> Result<(), Fail> {
    let alloc = rt.alloc();
    for (earlier, want) in OTHER_PAIRS {
        expect(&rt, alloc, earlier, &Plan::Pair(0, 1, 1, &[0, 1]), want)?;
    }
    Ok(())
}

/// The one path may be of the higher commodity, and its term then stands last.
const HIGHER: Cuts<'static> = &[
    (&[(0, 0, (1, 1)), (1, 1, (1, 1))], (1, 1)),
    (&[(0, 1, (1, 1)), (1, 1, (1, 1))], (1, 1)),
];

#[test]
fn a_pair_of_a_higher_commodity(rt: HostRuntime) -> Result<(), Fail> {
    let plan = Plan::Pair(1, 1, 0, &[0, 1]);
    let want = "1 x(0,0) 1 x(0,1) 1 x(1,1) <= 1";
    expect(&rt, rt.alloc(), HIGHER, &plan, want)
}

/// Of three paths each two are not taken together.
const RING: Cuts<'static> = &[
    (&[(0, 0, (1, 1)), (1, 0, (1, 1))], (1, 1)),
    (&[(0, 0, (1, 1)), (2, 0, (1, 1))], (1, 1)),
    (&[(1, 0, (1, 1)), (2, 0, (1, 1))], (1, 1)),
];

const HALF: Number = (1, 2);

/// Rows that are rounded, after those of the ring.
const ROUNDED: &[(Named<'static>, &str)] = &[
    (&[], "<= 0"),
    (&[(RowName::One(0), HALF)], "<= 0"),
    (&[(RowName::OneLow(0), HALF)], "-1 x(0,0) -1 x(0,1) <= -1"),
    (
        &[
            (RowName::Cut(0), HALF),
            (RowName::Cut(1), HALF),
            (RowName::Cut(2), HALF),
        ],
        "1 x(0,0) 1 x(1,0) 1 x(2,0) <= 1",
    ),
    (
        &[(RowName::One(0), (2, 3)), (RowName::Cut(1), (2, 3))],
        "1 x(0,0) <= 1",
    ),
];

/// Numbers below 0 are rounded down too, and the halves of a ring give that only one of its paths is taken.
#[test]
fn rounded_rows(rt: HostRuntime) -> Result<(), Fail> {
    let alloc = rt.alloc();
    for (named, want) in ROUNDED {
        expect(&rt, alloc, RING, &Plan::Round(named), want)?;
    }
    Ok(())
}

const ONE: Number = (1, 1);

/// As great as 32 bits hold.
const LARGE: Number = (2_147_483_647, 1);

/// Rows that are not rounded.
const REFUSED: &[(Named<'static>, &str)] = &[
    (&[(RowName::Cap(0), ONE)], "TollColumn"),
    (&[(RowName::Below(0, 0), ONE)], "TollColumn"),
    (
        &[(RowName::Use(0, 0), ONE), (RowName::One(0), LARGE)],
        "TollColumn",
    ),
    (
        &[(RowName::Cap(0), ONE), (RowName::Cut(0), (-1, 1))],
        "BadName",
    ),
    (&[(RowName::Below(0, 3), ONE)], "BadName"),
    (
        &[(RowName::OneLow(0), ONE), (RowName::One(0), (0, 1))],
        "BadOrder",
    ),
    (&[(RowName::One(0), (0, 1))], "NotPositive"),
];

/// The columns of tolls are judged before those of shares.
#[test]
fn rounded_rows_are_refused(rt: HostRuntime) -> Result<(), Fail> {
    let alloc = rt.alloc();
    for (named, want) in REFUSED {
        expect(&rt, alloc, &[], &Plan::Round(named), want)?;
    }
    Ok(())
}

/// A cut whose term is as great as 32 bits hold.
const LONG_TERM: Cuts<'static> = &[(&[(0, 0, (2_147_483_647, 1))], (1, 1))];

/// A cut whose right side is.
const LONG_SIDE: Cuts<'static> = &[(&[(0, 0, (1, 1))], (2_147_483_647, 1))];

/// Sums that do not fit 32 bits: the earlier rows, the derivation, and its answers at 32 and at 128 bits.
const SUMS: &[(Cuts<'static>, Plan<'static>, &str, &str)] = &[
    (
        &[],
        Plan::Conflict(0, 1, 2, 0, &[(FIRST, LARGE), (THIRD, LARGE)]),
        "-8 * 2147483647 does not fit",
        APART,
    ),
    (
        &[],
        Plan::Conflict(
            0,
            1,
            2,
            0,
            &[(RowName::Cap(0), LARGE), (FIRST, ONE), (THIRD, ONE)],
        ),
        "8 * 2147483647 does not fit",
        "NotBelowZero",
    ),
    (
        LONG_TERM,
        Plan::Round(&[(RowName::One(0), ONE), (RowName::Cut(0), ONE)]),
        "1 + 2147483647 does not fit",
        "2147483648 x(0,0) 1 x(0,1) <= 2",
    ),
    (
        LONG_SIDE,
        Plan::Round(&[(RowName::One(0), ONE), (RowName::Cut(0), ONE)]),
        "1 + 2147483647 does not fit",
        "2 x(0,0) 1 x(0,1) <= 2147483648",
    ),
];

/// Where a sum does not fit 32 bits, its first operation is told; 128 bits judge the sum.
#[test]
fn sums_that_do_not_fit(rt: HostRuntime) -> Result<(), Fail> {
    for (earlier, plan, narrow, wide) in SUMS {
        expect_at_widths(&rt, rt.alloc(), earlier, plan, narrow, wide)?;
    }
    Ok(())
}

/// What a derivation gives, with no earlier rows, over an index of all useful paths that is held.
fn derived_over_index<N: Exact>(alloc: Global, plan: &Plan) -> Result<String, Fail> {
    let net = instance_of(alloc, THREE_PAIRS)?;
    let covers = covers_of(alloc, &net)?;
    let covers = covers.as_slice();
    let table = PathTable::new(alloc, &net, covers)?;
    let allowed = table.all_paths(alloc)?;
    let index = RelaxationIndex::new(alloc, &table, &allowed)?;
    let earlier = Vec::<CutRow<N>>::new(alloc);
    let derivation = derivation_of(alloc, plan)?;
    match index.check_derivation(alloc, &earlier, &derivation) {
        Ok(row) => row_text(alloc, &row),
        Err(fault) => fault_text(alloc, fault),
    }
}

/// An index that is held gives the rows that are derived without one.
#[test]
fn over_an_index(rt: HostRuntime) -> Result<(), Fail> {
    let alloc = rt.alloc();
    let conflict = Plan::Conflict(0, 1, 2, 0, &[(FIRST, (1, 1)), (THIRD, (1, 1))]);
    let apart = derived_over_index::<Frac32>(alloc, &conflict)?;
    let round = Plan::Round(&[(RowName::One(0), ONE)]);
    let one = derived_over_index::<Frac32>(alloc, &round)?;
    assert_eq!(rt;
        [apart.as_str(), one.as_str()],
        [APART, "1 x(0,0) 1 x(0,1) <= 1"]
    );
    Ok(())
}
