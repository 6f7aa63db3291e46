//! Certificates of a toll road that three commodities share, each beside a toll-free road of its own.

use crate::answers::{Case, Certificate, expect_answers};
use npp_fixtures::{THREE_PAIRS, THREE_PAIRS_CERTIFICATE};
use std::test::Fail;

/// A toll of 3 earns 15, and a dual answer of the root's relaxation proves 78/5.
const ROOT: Certificate = Certificate {
    network: THREE_PAIRS,
    text: THREE_PAIRS_CERTIFICATE,
    changes: &[],
};

const ROOT_CASES: [Case; 20] = [
    (0, 0, "", "accepted 15 78/5"),
    (2, 2, "status optimal", "38 Status"),
    (5, 5, "upper 15", "38 Upper"),
    (6, 6, "opened 2", "38 Opened"),
    (7, 7, "toll 0 -3", "7 Tolls"),
    (10, 10, "path 2 2 3 5", "10 Path"),
    (14, 14, "step 2 0", "14 Cover(NotAStep(2))"),
    (26, 26, "cuts 2", "27 Order"),
    (28, 28, "inverse 6", "28 Evidence"),
    (28, 28, "farkas 6", "34 Evidence"),
    (28, 28, "dual 5", "33 Evidence"),
    (29, 30, "y below 0 1 19/20\ny below 0 0 1", "30 Evidence"),
    (30, 30, "y below 0 1 0", "30 Evidence"),
    (30, 30, "y below 0 3 1", "30 Evidence"),
    (30, 30, "y cut 0 1", "30 Evidence"),
    (34, 34, "y link 0 2 8/5", "34 Evidence"),
    (35, 35, "split 2 0 1", "35 Split"),
    (35, 35, "split 3 0", "35 Split"),
    (35, 35, "leaf", "36 Order"),
    (37, 37, "", "37 Order"),
];

/// No toll lets the first commodity take its toll-free road and the second the toll road.
const APART: Certificate = Certificate {
    network: THREE_PAIRS,
    text: THREE_PAIRS_CERTIFICATE,
    changes: &[
        (
            28,
            37,
            "basic large
split 0 1
basic large
split 1 0
farkas 5
y follow 0 0 1
y follow 1 1 1
y link 0 1 1
y onelow 0 10
y onelow 1 10
leaf
open
open",
        ),
        (5, 6, "upper 23\nopened 3"),
    ],
};

/// In the last but one the right sides come to 0 in all.
const APART_CASES: [Case; 8] = [
    (0, 0, "", "accepted 15 23"),
    (5, 5, "upper 9", "41 Upper"),
    (31, 31, "split 0 1", "31 Split"),
    (32, 32, "none 5", "32 Evidence"),
    (32, 32, "dual 5", "37 Evidence"),
    (36, 36, "y onelow 0 11", "37 Evidence"),
    (37, 37, "y onelow 1 8", "37 Evidence"),
    (37, 37, "y onelow 1 9", "accepted 15 23"),
];

#[test]
fn a_dual_answer_is_judged_line_by_line(rt: HostRuntime) -> Result<(), Fail> {
    expect_answers(&rt, rt.alloc(), ROOT, &ROOT_CASES)
}

#[test]
fn a_farkas_answer_is_judged_line_by_line(rt: HostRuntime) -> Result<(), Fail> {
    expect_answers(&rt, rt.alloc(), APART, &APART_CASES)
}
