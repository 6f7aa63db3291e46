//! Covers with more labels than the useful ones, in another order, and walks that come to a node again.

use crate::answers::{Case, Certificate, expect_answers};
use std::test::Fail;

/// A toll road, of which a second toll arc spares nothing, beside a toll-free one.
const NEEDLESS_TOLL: &str = "npp 1
node a
node b
node c
toll a c 1
toll c b 2
free c b 1
free a b 10
pair a b 5
";

/// The cover names the walk by one toll arc twice and the walk by both. So it has paths 0 and 1 of cost 2, path 2 of cost 3 and
/// the toll-free path 3, and the dual answer takes a row of path 1: 5·8 + 5·2 - 10 = 40.
const FOUR_PATHS: Certificate = Certificate {
    network: NEEDLESS_TOLL,
    text: "npp-certificate 1
status optimal
width 64
lower 40
upper 40
opened 1
toll 0 8
toll 1 7
path 0 2 8 0 2
cover 0 5
start
step 0 0
step 1 1
step 1 2
step 1 2
free 3
cuts 0
tree
dual 3
y cap 0 5
y follow 0 1 5
y onelow 0 10
leaf
end
",
    changes: &[],
};

const FOUR_PATHS_CASES: [Case; 8] = [
    (0, 0, "", "accepted 40 40"),
    (9, 9, "path 0 3 15 0 1", "17 Path"),
    (12, 12, "step 1 1", "12 Cover(NotAStep(1))"),
    (
        10,
        15,
        "cover 0 3\nstart\nstep 0 0\nstep 1 1",
        "14 Cover(NotClosed(1, ArcId(2)))",
    ),
    (21, 21, "y follow 0 2 5", "22 Evidence"),
    (21, 21, "y follow 0 4 5", "21 Evidence"),
    (22, 22, "y onelow 0 11", "22 Evidence"),
    (22, 22, "y onelow 0 9", "accepted 40 40"),
];

/// A toll-free and a toll road, and a way round from the origin back to it, by a toll-free arc or by a toll arc.
const WAY_ROUND: &str = "npp 1
node a
node b
node c
free a b 10
toll a b 2
free a c 0
toll c a 0
free c a 0
pair a b 5
";

/// The walk goes round three times and pays nothing there, the toll-free walk goes round twice, and labels go round as well.
const ROUND_AND_ROUND: Certificate = Certificate {
    network: WAY_ROUND,
    text: "npp-certificate 1
status optimal
width 128
lower 40
upper 40
opened 0
toll 0 8
toll 1 0
path 0 2 8 2 3 2 4 2 3 1
cover 0 6
start
step 0 2
step 1 3
step 2 1
step 0 1
step 2 2
free 2 4 2 4 0
cuts 0
tree
open
end
",
    changes: &[],
};

/// The toll of the way round is paid as often as the walk takes it.
const ROUND_AND_ROUND_CASES: [Case; 9] = [
    (0, 0, "", "accepted 40 40"),
    (8, 8, "toll 1 1/2", "9 Path"),
    (8, 9, "toll 1 1/2\npath 0 2 17/2 2 3 2 4 2 3 1", "9 Path"),
    (8, 9, "toll 1 1/2\npath 0 2 9 2 3 2 4 2 3 1", "18 Path"),
    (9, 9, "path 0 2 8 2 3 2 4 2 3", "9 Path"),
    (15, 16, "step 2 2\nstep 4 3", "16 Cover(RepeatedToll(5))"),
    (16, 16, "step 5 2", "16 Cover(NotAStep(5))"),
    (17, 17, "free 2 3 0", "17 Cover(BadFree)"),
    (17, 17, "free 2 4 2 0", "17 Cover(BadFree)"),
];

#[test]
fn a_cover_may_have_more_paths(rt: HostRuntime) -> Result<(), Fail> {
    expect_answers(&rt, rt.alloc(), FOUR_PATHS, &FOUR_PATHS_CASES)
}

#[test]
fn walks_may_come_to_a_node_again(rt: HostRuntime) -> Result<(), Fail> {
    expect_answers(&rt, rt.alloc(), ROUND_AND_ROUND, &ROUND_AND_ROUND_CASES)
}
