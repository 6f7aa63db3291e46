//! Evidence that is no optimum: weak dual answers, a program without points that is divided further, and nodes without any.

use crate::answers::{Case, Certificate, expect_answers};
use npp_fixtures::{THREE_PAIRS, THREE_PAIRS_CERTIFICATE};
use std::test::Fail;

/// Half of the best multipliers and half of some that prove 23: (78/5 + 23) / 2 = 193/10.
const WEAK: Certificate = Certificate {
    network: THREE_PAIRS,
    text: THREE_PAIRS_CERTIFICATE,
    changes: &[
        (
            28,
            37,
            "dual 10
y below 0 0 1/2
y below 0 1 19/40
y use 0 0 1/2
y use 0 1 3/5
y use 0 2 39/10
y link 0 1 3/40
y link 0 2 9/10
y one 0 4
y one 1 3
y one 2 9/2
leaf",
        ),
        (5, 5, "upper 193/10"),
    ],
};

const WEAK_CASES: [Case; 5] = [
    (0, 0, "", "accepted 15 193/10"),
    (5, 5, "upper 78/5", "40 Upper"),
    (36, 36, "y one 0 5", "40 Upper"),
    (37, 37, "y one 1 2", "38 Evidence"),
    (38, 38, "y one 2 4", "38 Evidence"),
];

/// Each commodity pays at most the toll, which is at most 8: 5·8 = 40, more than the basic bound, which stays.
const USELESS: Certificate = Certificate {
    network: THREE_PAIRS,
    text: THREE_PAIRS_CERTIFICATE,
    changes: &[
        (
            28,
            37,
            "dual 4
y cap 0 5
y below 0 0 1
y below 0 1 1
y below 0 2 3
leaf",
        ),
        (5, 5, "upper 23"),
    ],
};

const USELESS_CASES: [Case; 4] = [
    (0, 0, "", "accepted 15 23"),
    (5, 5, "upper 40", "34 Upper"),
    (29, 29, "y cap 0 4", "32 Evidence"),
    (32, 32, "y below 0 2 5/2", "32 Evidence"),
];

/// The second commodity cannot go without toll where the third takes the toll road. That node is divided all the same, and a child
/// of it whose basic bound is 17 has no outcome either.
const DIVIDED_FURTHER: Certificate = Certificate {
    network: THREE_PAIRS,
    text: THREE_PAIRS_CERTIFICATE,
    changes: &[
        (
            28,
            37,
            "basic large
split 2 1
open
basic capped
split 1 1
farkas 5
y follow 1 0 1
y follow 2 1 1
y link 0 2 1
y onelow 1 8
y onelow 2 10
split 0 0
basic overflow 7 pivot 2 3
leaf
open
dual 5
y follow 2 1 5
y below 0 0 1
y below 0 1 1
y link 0 2 2
y onelow 2 26
leaf",
        ),
        (5, 6, "upper 15\nopened 5"),
        (2, 2, "status optimal"),
    ],
};

const DIVIDED_FURTHER_CASES: [Case; 8] = [
    (0, 0, "", "accepted 15 15"),
    (33, 38, "basic large", "45 Upper"),
    (38, 38, "y onelow 2 9", "accepted 15 15"),
    (38, 38, "y onelow 2 7", "38 Evidence"),
    (38, 38, "y onelow 2 11", "38 Evidence"),
    (40, 40, "inverse 1\ny cap 0 4", "accepted 15 15"),
    (42, 42, "inverse 0\nleaf", "42 Evidence"),
    (48, 48, "y onelow 2 25", "50 Upper"),
];

#[test]
fn a_dual_answer_need_not_be_best(rt: HostRuntime) -> Result<(), Fail> {
    expect_answers(&rt, rt.alloc(), WEAK, &WEAK_CASES)
}

#[test]
fn a_bound_above_the_basic_one_is_no_help(rt: HostRuntime) -> Result<(), Fail> {
    expect_answers(&rt, rt.alloc(), USELESS, &USELESS_CASES)
}

#[test]
fn what_has_no_outcome_has_none_below(rt: HostRuntime) -> Result<(), Fail> {
    expect_answers(&rt, rt.alloc(), DIVIDED_FURTHER, &DIVIDED_FURTHER_CASES)
}
