//! Certificates whose nodes have the evidence that is found for them, checked.

use crate::certificates::{Below, Cut, Plan, are_short, items_of};
use npp_check::check;
use npp_fixtures::{Number, THREE_PAIRS, instance_of};
use npp_frac::{Exact, Frac32, Frac64, Frac128, print_fraction};
use npp_rows::RowName;
use npp_tree::Status;
use std::alloc::Global;
use std::process::Abort;
use std::test::Fail;

/// Both values of a certificate, or why it is refused.
fn verdict<N: Exact>(alloc: Global, plan: &Plan) -> Result<String, Fail> {
    let net = instance_of(alloc, THREE_PAIRS)?;
    let items = items_of::<N>(alloc, &net, plan)?;
    if !are_short(&items) {
        return Err("long lists")?;
    }
    match check(alloc, &net, items) {
        Ok(pair) => {
            let lower = print_fraction(alloc, pair.lower)?;
            let upper = print_fraction(alloc, pair.upper)?;
            Ok(format!(in alloc; "{lower} {upper}")?)
        }
        Err(refusal) => Ok(format!(in alloc; "{refusal:?}")?),
    }
}

/// Expects both values of a certificate at three widths.
fn expect(rt: &impl Abort, alloc: Global, plan: &Plan, want: &str) -> Result<(), Fail> {
    let narrow = verdict::<Frac32>(alloc, plan)?;
    assert_eq!(rt; narrow.as_str(), want);
    let wide = verdict::<Frac64>(alloc, plan)?;
    assert_eq!(rt; wide.as_str(), want);
    let widest = verdict::<Frac128>(alloc, plan)?;
    assert_eq!(rt; widest.as_str(), want);
    Ok(())
}

/// A dual answer alone; and a tree with dual answers, a Farkas answer, and those of a full choice with tolls and of one without.
#[test]
fn evidence_without_cuts_is_accepted(rt: HostRuntime) -> Result<(), Fail> {
    let alloc = rt.alloc();
    let both: &[u32] = &[0, 1];
    let root = Plan {
        status: Status::Budget,
        upper: (78, 5),
        cut: Cut::Missing,
        nodes: &[(&[both, both, both], Below::Leaf)],
    };
    expect(&rt, alloc, &root, "15 78/5")?;
    let tree = Plan {
        status: Status::Optimal,
        upper: (15, 1),
        cut: Cut::Missing,
        nodes: &[
            (&[both, both, both], Below::Split(2, &[0])),
            (&[both, both, &[0]], Below::Split(0, &[0])),
            (&[&[0], both, &[0]], Below::Split(1, &[0])),
            (&[&[0], &[0], &[0]], Below::Leaf),
            (&[&[0], &[1], &[0]], Below::Leaf),
            (&[&[1], both, &[0]], Below::Leaf),
            (&[both, both, &[1]], Below::Leaf),
        ],
    };
    expect(&rt, alloc, &tree, "15 15")
}

/// The first commodity takes the path beside the toll arc only where the third does not take it.
#[test]
fn evidence_with_a_cut_is_accepted(rt: HostRuntime) -> Result<(), Fail> {
    let both: &[u32] = &[0, 1];
    let tree = Plan {
        status: Status::Budget,
        upper: (78, 5),
        cut: Cut::Apart(&[
            (RowName::Follow(0, 0), (1, 1)),
            (RowName::Follow(2, 1), (1, 1)),
        ]),
        nodes: &[
            (&[both, both, both], Below::Split(0, &[0])),
            (&[&[0], both, both], Below::Leaf),
            (&[&[1], both, both], Below::Split(2, &[0])),
            (&[&[1], both, &[0]], Below::Leaf),
            (&[&[1], both, &[1]], Below::Leaf),
        ],
    };
    expect(&rt, rt.alloc(), &tree, "15 78/5")
}

/// Both values of a certificate of the root alone, with a cut of large numbers and this upper value.
fn verdict_with_large_cut<N: Exact>(alloc: Global, upper: Number) -> Result<String, Fail> {
    let both: &[u32] = &[0, 1];
    let root = Plan {
        status: Status::Budget,
        upper,
        cut: Cut::Round(&[(RowName::One(0), (2_147_483_647, 1))]),
        nodes: &[(&[both, both, both], Below::Leaf)],
    };
    verdict::<N>(alloc, &root)
}

/// At 32 bits the program is not quiet, and its mark leaves the bound of the costs.
#[test]
fn a_mark_is_accepted(rt: HostRuntime) -> Result<(), Fail> {
    let alloc = rt.alloc();
    let narrow = verdict_with_large_cut::<Frac32>(alloc, (23, 1))?;
    assert_eq!(rt; narrow.as_str(), "15 23");
    let wide = verdict_with_large_cut::<Frac64>(alloc, (78, 5))?;
    assert_eq!(rt; wide.as_str(), "15 78/5");
    let widest = verdict_with_large_cut::<Frac128>(alloc, (78, 5))?;
    assert_eq!(rt; widest.as_str(), "15 78/5");
    Ok(())
}
