//! The nodes of a tree, as text.

use npp_frac::{Exact, print_fraction};
use npp_tree::{Bound, Branch, CertNode, CertTree, Evidence};
use std::alloc::Global;
use std::fmt::Write;
use std::test::Fail;

/// The kind of evidence, with its mark where it has one.
fn write_kind<N: Exact>(text: &mut String, evidence: &Evidence<N>) -> Result<(), Fail> {
    match evidence {
        Evidence::Unopened => text.push_str("open")?,
        Evidence::Basic(mark) => write!(text, "basic {mark:?}")?,
        Evidence::Dual(_) => text.push_str("dual")?,
        Evidence::Farkas(_) => text.push_str("farkas")?,
        Evidence::Inverse(_) => text.push_str("inverse")?,
        Evidence::NoInverse(_) => text.push_str("none")?,
    }
    Ok(())
}

/// The commodity by which a node is split, and the paths that its first child allows.
fn write_branch(text: &mut String, branch: &Branch) -> Result<(), Fail> {
    if let Branch::Split { commodity, part } = branch {
        write!(text, " split {commodity}")?;
        for path in part.entries() {
            write!(text, " {path}")?;
        }
    }
    text.push('\n')?;
    Ok(())
}

/// The line of a node: its evidence, its bound, and its split.
fn write_node<N: Exact>(alloc: Global, text: &mut String, node: &CertNode<N>) -> Result<(), Fail> {
    write_kind(text, &node.evidence)?;
    match node.bound {
        Bound::Empty => text.push_str(" empty")?,
        Bound::At(bound) => write!(text, " {}", print_fraction(alloc, bound)?)?,
    }
    write_branch(text, &node.branch)
}

/// A line for each node, in preorder.
pub(crate) fn write_tree<N: Exact>(
    alloc: Global,
    text: &mut String,
    tree: &CertTree<N>,
) -> Result<(), Fail> {
    for node in tree.nodes.entries() {
        write_node(alloc, text, node)?;
    }
    Ok(())
}
