//! Trees that no rule of a search gave: all choices one by one, and trees that lean to one side.

use crate::answers::{Case, Certificate, expect_answers};
use npp_fixtures::{THREE_PAIRS, THREE_PAIRS_CERTIFICATE};
use std::test::Fail;

/// All eight choices, with marks alone above them. Tolls up to 3, 6 and 8 earn 5·3, 2·6 and 1·8; the other choices have no tolls,
/// or earn nothing.
const EACH_CHOICE: Certificate = Certificate {
    network: THREE_PAIRS,
    text: THREE_PAIRS_CERTIFICATE,
    changes: &[
        (
            28,
            37,
            "basic large
split 0 0
basic capped
split 1 0
basic sum
split 2 0
inverse 1
y follow 2 1 5
leaf
inverse 1
y follow 1 1 2
leaf
basic overflow 1 ratio 0 0
split 2 0
none 2
y follow 1 0 1
y follow 2 1 1
leaf
inverse 1
y cap 0 1
leaf
basic sum
split 1 0
basic sum
split 2 0
none 2
y follow 0 0 1
y follow 2 1 1
leaf
none 2
y follow 0 0 1
y follow 1 1 1
leaf
basic sum
split 2 0
none 2
y follow 1 0 1
y follow 2 1 1
leaf
inverse 0
leaf",
        ),
        (5, 6, "upper 15\nopened 15"),
        (2, 2, "status optimal"),
    ],
};

/// A choice with a mark alone keeps its basic bound: 23 for the first, 14 for the second, 17 for the third.
const EACH_CHOICE_CASES: [Case; 9] = [
    (0, 0, "", "accepted 15 15"),
    (34, 35, "basic sum", "68 Upper"),
    (37, 38, "basic sum", "accepted 15 15"),
    (42, 44, "basic sum", "67 Upper"),
    (46, 47, "none 0", "46 Evidence"),
    (47, 47, "y cap 0 1/2", "47 Evidence"),
    (54, 54, "y follow 0 1 1", "55 Evidence"),
    (58, 58, "y follow 0 0 2", "59 Evidence"),
    (67, 68, "open", "68 Opened"),
];

/// Three toll roads beside a toll-free one.
const FOUR_ROADS: &str = "npp 1
node a
node b
free a b 10
toll a b 2
toll a b 4
toll a b 6
pair a b 5
";

/// The tolls are not the best ones, the labels stand in falling order, and each second child is divided.
const FOUR_ROADS_CERTIFICATE: &str = "npp-certificate 1
status budget
width 32
lower 45/2
upper 40
opened 4
toll 0 9/2
toll 1 7/2
toll 2 3
path 0 2 9/2 1
cover 0 4
start
step 0 3
step 0 2
step 0 1
free 0
cuts 0
tree
basic large
split 0 3
open
basic large
split 0 2
open
basic large
split 0 1
open
inverse 1
y cap 0 6
leaf
end
";

const TO_THE_RIGHT: Certificate = Certificate {
    network: FOUR_ROADS,
    text: FOUR_ROADS_CERTIFICATE,
    changes: &[],
};

const TO_THE_RIGHT_CASES: [Case; 10] = [
    (0, 0, "", "accepted 45/2 40"),
    (2, 2, "status overflow", "accepted 45/2 40"),
    (3, 3, "width 128", "accepted 45/2 40"),
    (5, 5, "upper 45/2", "31 Upper"),
    (20, 20, "split 0 3 2", "20 Split"),
    (23, 23, "split 0 3", "23 Split"),
    (26, 26, "split 0 0", "29 Evidence"),
    (26, 26, "split 0 0 1", "26 Split"),
    (28, 30, "open", "29 Opened"),
    (30, 30, "", "30 Order"),
];

/// The same, and each first child is divided.
const TO_THE_LEFT: Certificate = Certificate {
    network: FOUR_ROADS,
    text: FOUR_ROADS_CERTIFICATE,
    changes: &[(
        19,
        30,
        "basic large
split 0 0 1 2
basic sum
split 0 0 1
basic capped
split 0 0
inverse 1
y cap 0 5
leaf
open
open
open",
    )],
};

const TO_THE_LEFT_CASES: [Case; 5] = [
    (0, 0, "", "accepted 45/2 40"),
    (25, 27, "open", "29 Opened"),
    (28, 28, "open\nopen", "31 Order"),
    (30, 30, "", "30 Order"),
    (30, 30, "leaf", "30 Order"),
];

#[test]
fn all_choices_may_be_tried(rt: HostRuntime) -> Result<(), Fail> {
    expect_answers(&rt, rt.alloc(), EACH_CHOICE, &EACH_CHOICE_CASES)
}

#[test]
fn a_tree_may_lean_to_one_side(rt: HostRuntime) -> Result<(), Fail> {
    expect_answers(&rt, rt.alloc(), TO_THE_RIGHT, &TO_THE_RIGHT_CASES)?;
    expect_answers(&rt, rt.alloc(), TO_THE_LEFT, &TO_THE_LEFT_CASES)
}
