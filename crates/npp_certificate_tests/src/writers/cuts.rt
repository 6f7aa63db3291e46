//! Cuts that follow from cuts: a rounded sum of conflicts, and a pair of one conflict and of a copy of another.

use crate::answers::{Case, Certificate, expect_answers};
use std::test::Fail;

/// Two toll roads, A and B, beside toll-free roads of cost 3. To the first commodity A is dearer by 1, to the second B is, and to
/// the third neither.
const BIASED: &str = "npp 1
node a
node b
node d
node p
node q
node r
toll a d 0
toll b d 0
free p a 1
free p b 0
free p d 3
free q a 0
free q b 1
free q d 3
free r a 0
free r b 0
free r d 3
pair p d 1
pair q d 1
pair r d 1
";

/// The first commodity takes A only where its toll is below that of B and at most 2; the second takes B only where its toll is below
/// that of A and at most 2; the third goes without toll only where both are at least 3. So at most one of the three does so: cut 3,
/// by halves of the cuts 0 to 2. Cut 5 is cut 0 once more. By it and cut 4 the first on A leaves A alone to the second: cut 6.
const CUTS_OF_CUTS: Certificate = Certificate {
    network: BIASED,
    text: "npp-certificate 1
status budget
width 64
lower 6
upper 9
opened 5
toll 0 2
toll 1 2
path 0 0 2 3 1
path 1 0 2 5 0
path 2 0 2 9 1
cover 0 5
start
step 0 2
step 0 3
step 1 0
step 2 1
free 4
cover 1 5
start
step 0 5
step 0 6
step 1 0
step 2 1
free 7
cover 2 5
start
step 0 8
step 0 9
step 1 0
step 2 1
free 10
cuts 7
conflict 0 1 1 1 2
y follow 0 0 1
y follow 1 0 1
conflict 0 1 2 2 2
y follow 0 2 1
y follow 2 0 1
conflict 1 1 2 2 2
y follow 1 2 1
y follow 2 1 1
round 3
y cut 0 1/2
y cut 1 1/2
y cut 2 1/2
conflict 0 1 1 2 2
y follow 0 2 1
y follow 1 0 1
round 1
y cut 0 1
pair 0 1 1 4 5
tree
basic large
split 0 1
basic sum
split 2 2
farkas 3
y onelow 0 1
y onelow 2 1
y cut 3 1
leaf
basic large
split 1 1 2
farkas 3
y onelow 0 1
y onelow 1 1
y cut 6 1
leaf
open
open
end
",
    changes: &[],
};

/// A third of the rows `below` and `link` of the first commodity on A is the row `x(0,1) <= 1`: the tolls fall out.
const CUTS_OF_CUTS_CASES: [Case; 17] = [
    (0, 0, "", "accepted 6 9"),
    (33, 33, "cuts 6", "52 Order"),
    (43, 46, "round 2\ny cut 0 1/2\ny cut 1 1/2", "60 Evidence"),
    (44, 46, "y cut 0 1\ny cut 1 1\ny cut 2 1", "61 Evidence"),
    (45, 46, "y cut 2 1/2\ny cut 1 1/2", "46 Cut"),
    (46, 46, "y cut 2 2/5", "61 Evidence"),
    (46, 46, "y cut 2 3/5", "accepted 6 9"),
    (46, 46, "y cut 3 1/2", "46 Cut"),
    (
        50,
        52,
        "round 2\ny below 0 0 1/3\ny link 0 0 1/3\npair 0 1 1 0 4",
        "accepted 6 9",
    ),
    (
        50,
        52,
        "round 2\ny below 0 0 1/3\ny link 0 0 1/2\npair 0 1 1 0 4",
        "52 Cut",
    ),
    (51, 51, "y cut 0 1/2", "52 Cut"),
    (52, 52, "pair 0 1 1 0 3", "52 Cut"),
    (52, 52, "pair 0 1 1 1 4", "52 Cut"),
    (52, 52, "pair 0 1 1 4 6", "52 Cut"),
    (52, 52, "pair 0 1 1 0 5", "68 Evidence"),
    (61, 61, "y cut 6 1", "61 Evidence"),
    (68, 68, "y cut 3 1", "68 Evidence"),
];

#[test]
fn cuts_follow_from_cuts(rt: HostRuntime) -> Result<(), Fail> {
    expect_answers(&rt, rt.alloc(), CUTS_OF_CUTS, &CUTS_OF_CUTS_CASES)
}
