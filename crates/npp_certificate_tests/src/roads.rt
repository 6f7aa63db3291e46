//! Certificates of one toll road beside a free one, line by line.

use crate::answers::{Case, Certificate, expect_answers, expect_at};
use npp_check::{CheckRefusal, Checker, Rule};
use npp_fixtures::{TWO_ROADS, TWO_ROADS_CERTIFICATE, instance_of};
use npp_frac::{Frac32, Frac64, Frac128};
use npp_tree::{Item, Status};
use std::test::Fail;

/// A toll road of cost 2 and a ceiling of 3, beside a free one of cost 10, for five travellers.
const CAPPED: &str = "npp 2
node a
node b
free a b 10
toll a b 2 3
pair a b 5
";

/// A toll road of cost 0 beside a free one of cost 1,000,000, for 1,000,000 travellers.
const LONG_ROADS: &str = "npp 1
node a
node b
free a b 1000000
toll a b 0
pair a b 1000000
";

/// A toll road alone.
const TOLL_ROAD: &str = "npp 1
node a
node b
toll a b 1
pair a b 1
";

/// All pay 8 on the toll road, and the basic bound closes the root.
pub(crate) const CLOSED: Certificate = Certificate {
    network: TWO_ROADS,
    text: TWO_ROADS_CERTIFICATE,
    changes: &[],
};

/// The head of the same certificate in the second form.
const SECOND_FORM: &str = "npp-certificate 2
status optimal
width 64
lower 40
upper 40
opened 0
instance 2 2 1 1
limit 0 -";

const CLOSED_CASES: [Case; 24] = [
    (0, 0, "", "accepted 40 40"),
    (1, 6, SECOND_FORM, "accepted 40 40"),
    (6, 6, "opened 0\ninstance 2 2 1 1", "7 Order"),
    (1, 1, "npp-certificate 2", "7 Order"),
    (2, 2, "status budget", "16 Status"),
    (4, 4, "lower 39", "13 Lower"),
    (5, 5, "upper 39", "16 Upper"),
    (6, 6, "opened 1", "16 Opened"),
    (7, 7, "toll 1 8", "7 Order"),
    (7, 7, "toll 0 -1", "7 Tolls"),
    (7, 8, "toll 0 9\npath 0 2 9 1", "13 Path"),
    (8, 8, "path 0 2 7 1", "8 Path"),
    (8, 8, "path 0 3 8 1", "8 Path"),
    (8, 8, "path 0 10 0 0", "13 Lower"),
    (9, 9, "cover 0 65537", "9 Cover(TooManyLabels)"),
    (9, 11, "cover 0 0", "10 Cover(MissingOrigin)"),
    (
        9,
        11,
        "cover 0 1\nstart",
        "11 Cover(NotClosed(0, ArcId(1)))",
    ),
    (11, 11, "step 1 1", "11 Cover(NotAStep(1))"),
    (11, 11, "step 0 0", "11 Cover(Useless(1))"),
    (12, 12, "free 1", "12 Cover(BadFree)"),
    (13, 13, "cuts 1001", "13 Cut"),
    (15, 15, "basic large\nsplit 0 0 1\nopen\nopen", "16 Split"),
    (15, 15, "open\nopen", "16 Order"),
    (16, 16, "", "16 Order"),
];

/// The same revenue, with a split and the inverse programs of both choices.
const SPLIT: Certificate = Certificate {
    network: TWO_ROADS,
    text: TWO_ROADS_CERTIFICATE,
    changes: &[
        (
            15,
            15,
            "basic large
split 0 0
inverse 1
y cap 0 5
leaf
inverse 0
leaf",
        ),
        (6, 6, "opened 3"),
    ],
};

const SPLIT_CASES: [Case; 24] = [
    (0, 0, "", "accepted 40 40"),
    (6, 6, "opened 2", "22 Opened"),
    (15, 15, "dual 0", "15 Evidence"),
    (15, 15, "inverse 0", "15 Evidence"),
    (16, 16, "split 1 0", "16 Split"),
    (16, 16, "split 0 2", "16 Split"),
    (16, 16, "split 0 1 0", "16 Split"),
    (16, 16, "leaf", "17 Order"),
    (17, 17, "dual 1", "17 Evidence"),
    (17, 17, "farkas 1", "17 Evidence"),
    (17, 17, "inverse 0", "17 Evidence"),
    (17, 17, "inverse 2", "19 Order"),
    (17, 17, "none 1", "18 Evidence"),
    (17, 18, "inverse 2\ny cap 0 4\ny cap 0 1", "19 Evidence"),
    (18, 18, "y cap 0 4", "18 Evidence"),
    (18, 18, "y cap 0 0", "18 Evidence"),
    (18, 18, "y cap 0 -5", "18 Evidence"),
    (18, 18, "y cap 1 5", "18 Evidence"),
    (18, 18, "y below 0 0 5", "18 Evidence"),
    (18, 18, "y follow 0 2 5", "18 Evidence"),
    (19, 19, "split 0 0", "19 Split"),
    (20, 20, "none 0", "20 Evidence"),
    (21, 21, "end", "21 Order"),
    (22, 22, "end\nend", "23 Order"),
];

/// All pay 3 under the ceiling, and a dual answer closes the root.
const UNDER_CEILING: Certificate = Certificate {
    network: CAPPED,
    text: TWO_ROADS_CERTIFICATE,
    changes: &[
        (
            15,
            15,
            "dual 2
y cap 0 5
y below 0 0 5
leaf",
        ),
        (
            4,
            8,
            "lower 15
upper 15
opened 1
instance 2 2 1 1
limit 0 3
toll 0 3
path 0 2 3 1",
        ),
        (1, 1, "npp-certificate 2"),
    ],
};

/// The head of the same certificate in the first form.
const FIRST_FORM: &str = "npp-certificate 1
status optimal
width 64
lower 15
upper 15
opened 1";

/// The same head with a toll above the ceiling.
const FIRST_FORM_ABOVE: &str = "npp-certificate 1
status optimal
width 64
lower 15
upper 15
opened 1
toll 0 4";

const CEILING_CASES: [Case; 11] = [
    (0, 0, "", "accepted 15 15"),
    (1, 8, FIRST_FORM, "accepted 15 15"),
    (1, 9, FIRST_FORM_ABOVE, "7 Tolls"),
    (7, 7, "instance 2 2 1 2", "7 Instance"),
    (7, 7, "instance 2 3 1 1", "7 Instance"),
    (7, 8, "", "7 Order"),
    (8, 8, "limit 0 -", "8 Instance"),
    (9, 9, "toll 0 4", "9 Tolls"),
    (17, 17, "farkas 2", "19 Evidence"),
    (18, 18, "y cap 0 4", "19 Evidence"),
    (20, 20, "split 0 0 1", "20 Split"),
];

/// Nobody pays, and the inverse programs of both choices bound what can be earned.
const FAR_APART: Certificate = Certificate {
    network: LONG_ROADS,
    text: TWO_ROADS_CERTIFICATE,
    changes: &[
        (
            15,
            15,
            "basic large
split 0 0
inverse 1
y cap 0 1000000
leaf
inverse 0
leaf",
        ),
        (
            2,
            8,
            "status overflow
width 64
lower 0
upper 1000000000000
opened 3
toll 0 0
path 0 0 0 1",
        ),
    ],
};

/// All pay 1,000,000 on the toll road, which is more in all than fits 32 bits.
const ALL_PAY: &str = "upper 1
opened 3
toll 0 1000000
path 0 0 1000000 1";

#[test]
fn a_closed_root_is_judged_line_by_line(rt: HostRuntime) -> Result<(), Fail> {
    expect_answers(&rt, rt.alloc(), CLOSED, &CLOSED_CASES)
}

#[test]
fn a_tree_of_choices_is_judged_line_by_line(rt: HostRuntime) -> Result<(), Fail> {
    expect_answers(&rt, rt.alloc(), SPLIT, &SPLIT_CASES)
}

#[test]
fn ceilings_are_kept_and_named(rt: HostRuntime) -> Result<(), Fail> {
    expect_answers(&rt, rt.alloc(), UNDER_CEILING, &CEILING_CASES)?;
    let without = Certificate {
        network: TWO_ROADS,
        ..UNDER_CEILING
    };
    expect_answers(&rt, rt.alloc(), without, &[(0, 0, "", "8 Instance")])
}

#[test]
fn a_commodity_needs_a_toll_free_walk(rt: HostRuntime) -> Result<(), Fail> {
    let alone = Certificate {
        network: TOLL_ROAD,
        ..CLOSED
    };
    expect_answers(&rt, rt.alloc(), alone, &[(0, 0, "", "NoFreePath(0)")])
}

#[test]
fn sums_that_do_not_fit_are_named(rt: HostRuntime) -> Result<(), Fail> {
    let alloc = rt.alloc();
    let whole = (0, 0, "", "accepted 0 1000000000000");
    expect_at::<Frac64>(&rt, alloc, FAR_APART, whole)?;
    expect_at::<Frac128>(&rt, alloc, FAR_APART, whole)?;
    let evidence = (5, 5, "upper 1", "18 Overflow");
    expect_at::<Frac32>(&rt, alloc, FAR_APART, evidence)?;
    let earned = (5, 8, ALL_PAY, "13 Overflow");
    expect_at::<Frac32>(&rt, alloc, FAR_APART, earned)
}

#[test]
fn the_first_refusal_stays(rt: HostRuntime) -> Result<(), Fail> {
    let alloc = rt.alloc();
    let instance = instance_of(alloc, TWO_ROADS)?;
    let mut checker: Checker<Frac128> = Checker::new(alloc, &instance)?;
    assert_eq!(rt; checker.feed(Item::Header), Ok(()));
    assert_eq!(rt; checker.feed(Item::StatusIs(Status::Optimal)), Ok(()));
    let broken = CheckRefusal::Broken {
        line: 3,
        rule: Rule::Order,
    };
    assert_eq!(rt; checker.feed(Item::Tree), Err(broken));
    assert_eq!(rt; checker.feed(Item::Width(64)), Err(broken));
    assert!(rt; checker.finish().is_err());
    Ok(())
}
