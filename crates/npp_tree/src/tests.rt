//! Bounds of nodes, and of small trees.

use crate::{Bound, Branch, CertNode, CertTree, Evidence, bound_of};
use npp_frac::{Exact, Frac32, Frac64, Frac128};
use npp_net::Listed;
use npp_rows::Mark;
use std::alloc::{AllocError, Global};
use std::test::Fail;

fn at(bound: i8) -> Bound {
    Bound::At(Frac128::of_whole(bound as i64))
}

/// Whether the bound is this number.
fn is_at(bound: Bound, number: i128) -> bool {
    matches!(bound, Bound::At(value) if (value.num(), value.den()) == (number, 1))
}

fn leaf<N: Exact>(bound: Bound) -> CertNode<N> {
    CertNode {
        evidence: Evidence::Unopened,
        branch: Branch::Leaf,
        bound,
    }
}

/// A node with two leaves below it.
fn split<N: Exact>(
    alloc: Global,
    bound: Bound,
    first: Bound,
    second: Bound,
) -> Result<CertTree<N>, AllocError> {
    let root = CertNode {
        evidence: Evidence::Basic(Mark::Large),
        branch: Branch::Split {
            commodity: 0,
            part: Listed::of(vec![in alloc; 0]?),
        },
        bound,
    };
    Ok(CertTree {
        nodes: Listed::of(vec![in alloc; root, leaf(first), leaf(second)]?),
    })
}

#[test]
fn empty_is_below_every_fraction(rt: HostRuntime) {
    assert!(rt; Bound::Empty.is_below(at(-1)));
    assert!(rt; !at(-1).is_below(Bound::Empty));
    assert!(rt; !Bound::Empty.is_below(Bound::Empty));
    assert!(rt; at(2).is_below(at(3)) && !at(3).is_below(at(3)));
    assert!(rt; is_at(at(2).lesser(at(3)), 2) && is_at(at(2).greater(at(3)), 3));
    assert!(rt; is_at(Bound::Empty.greater(at(-1)), -1));
    assert!(rt; matches!(at(3).lesser(Bound::Empty), Bound::Empty));
}

#[test]
fn the_bound_of_a_tree_is_its_greatest_leaf(rt: HostRuntime) -> Result<(), Fail> {
    let tree: CertTree<Frac32> = split(rt.alloc(), at(23), at(14), at(15))?;
    assert!(rt; is_at(bound_of(&tree), 15));
    let tree: CertTree<Frac64> = split(rt.alloc(), at(23), at(14), Bound::Empty)?;
    assert!(rt; is_at(bound_of(&tree), 14));
    let tree: CertTree<Frac128> = split(rt.alloc(), at(23), Bound::Empty, Bound::Empty)?;
    assert!(rt; matches!(bound_of(&tree), Bound::Empty));
    Ok(())
}
