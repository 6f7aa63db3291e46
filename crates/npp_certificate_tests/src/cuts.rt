//! Certificates with cuts.

use crate::answers::{Case, Certificate, expect_answers, expect_at, expect_with};
use npp_fixtures::{THREE_PAIRS, THREE_PAIRS_CERTIFICATE};
use npp_frac::{Frac32, Frac64};
use npp_net::Listed;
use npp_tree::Item;
use std::test::Fail;

/// The conflict of the toll-free road of the first commodity and the toll road of the second, and a rounded multiple of it. With
/// the rounded row no outcome is left to a node that allows the two commodities these roads alone.
const ROUNDED: Certificate = Certificate {
    network: THREE_PAIRS,
    text: THREE_PAIRS_CERTIFICATE,
    changes: &[
        (
            26,
            37,
            "cuts 2
conflict 0 1 1 0 2
y follow 0 0 1
y follow 1 1 1
round 1
y cut 0 3/2
tree
basic large
split 0 1
basic large
split 1 0
farkas 3
y onelow 0 1
y onelow 1 1/4
y cut 1 1
leaf
open
open",
        ),
        (5, 6, "upper 23\nopened 3"),
    ],
};

/// A conflict that no rule of names, order or sign breaks is judged by its sums.
const CONFLICT_CASES: [Case; 18] = [
    (
        27,
        29,
        "conflict 1 0 0 1 2\ny follow 0 0 1\ny follow 1 1 1",
        "29 Cut",
    ),
    (
        27,
        29,
        "conflict 0 2 1 0 2\ny follow 0 0 1\ny follow 1 1 1",
        "29 Cut",
    ),
    (
        27,
        29,
        "conflict 0 1 1 2 2\ny follow 0 0 1\ny follow 1 1 1",
        "29 Cut",
    ),
    (
        27,
        29,
        "conflict 0 1 3 0 2\ny follow 0 0 1\ny follow 1 1 1",
        "29 Cut",
    ),
    (
        27,
        29,
        "conflict 0 1 1 0 2\ny follow 0 2 1\ny follow 1 1 1",
        "29 Cut",
    ),
    (
        27,
        29,
        "conflict 0 1 1 0 2\ny follow 1 1 1\ny follow 2 1 1",
        "29 Cut",
    ),
    (27, 29, "conflict 0 1 1 0 1\ny below 0 0 1", "28 Cut"),
    (
        27,
        29,
        "conflict 0 1 1 0 2\ny follow 1 1 1\ny follow 0 0 1",
        "29 Cut",
    ),
    (
        27,
        29,
        "conflict 0 1 1 0 2\ny follow 0 0 1\ny follow 0 0 1",
        "29 Cut",
    ),
    (
        27,
        29,
        "conflict 0 1 1 0 2\ny follow 0 0 1\ny follow 1 1 0",
        "29 Cut",
    ),
    (
        27,
        29,
        "conflict 0 1 1 0 2\ny follow 0 0 1\ny follow 1 1 -1",
        "29 Cut",
    ),
    (27, 29, "conflict 0 1 1 0 1\ny follow 0 0 1", "28 Cut"),
    (27, 29, "conflict 0 1 1 0 0", "27 Cut"),
    (27, 29, "conflict 0 1 1 0 1\ny follow 1 1 1", "28 Cut"),
    (
        27,
        29,
        "conflict 0 1 2 0 2\ny follow 0 0 1\ny follow 2 1 3",
        "29 Cut",
    ),
    (
        27,
        29,
        "conflict 0 1 2 0 2\ny follow 0 0 3\ny follow 2 1 8",
        "29 Cut",
    ),
    (
        27,
        29,
        "conflict 0 1 2 0 2\ny follow 0 0 1\ny follow 2 1 1",
        "40 Evidence",
    ),
    (
        27,
        29,
        "conflict 0 1 1 0 2\ny follow 0 0 1\ntree",
        "29 Order",
    ),
];

const ROUND_CASES: [Case; 12] = [
    (0, 0, "", "accepted 15 23"),
    (26, 26, "cuts 3", "32 Order"),
    (30, 31, "round 1\ny cap 0 1", "31 Cut"),
    (30, 31, "round 1\ny use 0 0 1", "31 Cut"),
    (30, 31, "round 1\ny cut 1 1", "31 Cut"),
    (30, 31, "round 1\ny below 0 3 1", "31 Cut"),
    (30, 31, "round 2\ny one 1 1\ny one 0 1", "32 Cut"),
    (30, 31, "round 1\ny one 0 0", "31 Cut"),
    (30, 31, "round 1\ny one 0 -1/2", "31 Cut"),
    (30, 31, "round 0", "39 Evidence"),
    (38, 38, "y onelow 0 3/2", "40 Evidence"),
    (40, 40, "y cut 2 1", "40 Evidence"),
];

/// Multipliers whose multiples do not fit 32 bits.
const LARGE_CONFLICT: &str = "conflict 0 1 1 0 2
y follow 0 0 2147483647
y follow 1 1 2147483647";

/// Multipliers whose sum at a path does not fit 32 bits.
const LARGE_ROUND: &str = "round 2
y one 0 2147483647
y cut 0 2147483647";

/// Two toll roads of costs 2 and 4, beside toll-free roads of costs 14 and 9.
const TWO_TOLLS: &str = "npp 1
node a
node b
node p
node q
toll a b 2
toll a b 4
free p a 0
free p b 14
free q a 0
free q b 9
pair p b 1
pair q b 1
";

/// The toll-free road of the first commodity is in conflict with both toll roads of the second. So no outcome is left to a node
/// that allows the one the toll-free road alone and the other the toll roads alone.
const PAIRED: Certificate = Certificate {
    network: TWO_TOLLS,
    text: "npp-certificate 1
status budget
width 64
lower 14
upper 19
opened 3
toll 0 7
toll 1 7
path 0 2 7 2 0
path 1 2 7 4 0
cover 0 4
start
step 0 2
step 1 0
step 1 1
free 3
cover 1 4
start
step 0 4
step 1 0
step 1 1
free 5
cuts 3
conflict 0 2 1 0 2
y follow 0 0 1
y follow 1 2 1
conflict 0 2 1 1 2
y follow 0 1 1
y follow 1 2 1
pair 0 2 1 0 1
tree
basic large
split 0 2
basic large
split 1 0 1
farkas 3
y onelow 0 1
y onelow 1 1
y cut 2 1
leaf
open
open
end
",
    changes: &[],
};

const PAIR_CASES: [Case; 13] = [
    (0, 0, "", "accepted 14 19"),
    (30, 30, "pair 0 2 0 0 1", "30 Cut"),
    (30, 30, "pair 0 3 1 0 1", "30 Cut"),
    (30, 30, "pair 2 0 1 0 1", "30 Cut"),
    (30, 30, "pair 0 2 2 0 1", "30 Cut"),
    (30, 30, "pair 0 2 1 1 0", "30 Cut"),
    (30, 30, "pair 0 2 1 0 0", "30 Cut"),
    (30, 30, "pair 0 2 1 0 2", "30 Cut"),
    (30, 30, "pair 0 1 1 0 1", "30 Cut"),
    (27, 29, "round 0", "28 Cut"),
    (36, 37, "farkas 2", "38 Evidence"),
    (38, 38, "y onelow 1 1/2", "accepted 14 19"),
    (38, 38, "y onelow 1 3/2", "39 Evidence"),
];

#[test]
fn a_conflict_is_judged_at_its_last_line(rt: HostRuntime) -> Result<(), Fail> {
    expect_answers(&rt, rt.alloc(), ROUNDED, &CONFLICT_CASES)
}

#[test]
fn a_combination_is_rounded(rt: HostRuntime) -> Result<(), Fail> {
    expect_answers(&rt, rt.alloc(), ROUNDED, &ROUND_CASES)
}

#[test]
fn a_pair_takes_two_conflicts(rt: HostRuntime) -> Result<(), Fail> {
    expect_answers(&rt, rt.alloc(), PAIRED, &PAIR_CASES)
}

#[test]
fn sums_of_cuts_that_do_not_fit_are_named(rt: HostRuntime) -> Result<(), Fail> {
    let alloc = rt.alloc();
    let narrow = (27, 29, LARGE_CONFLICT, "29 Overflow");
    expect_at::<Frac32>(&rt, alloc, ROUNDED, narrow)?;
    let wide = (27, 29, LARGE_CONFLICT, "accepted 15 23");
    expect_at::<Frac64>(&rt, alloc, ROUNDED, wide)?;
    let round = (30, 31, LARGE_ROUND, "32 Overflow");
    expect_at::<Frac32>(&rt, alloc, ROUNDED, round)
}

#[test]
fn a_pair_of_one_cut_is_refused(rt: HostRuntime) -> Result<(), Fail> {
    let alloc = rt.alloc();
    let pair = Item::Pair {
        k: 0,
        p: 2,
        l: 1,
        cuts: Listed::of(vec![in alloc; 0]?),
    };
    let case = (30, 100, "", "30 Cut");
    expect_with(&rt, alloc, PAIRED, case, pair)
}
