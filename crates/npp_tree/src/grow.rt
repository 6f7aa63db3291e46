//! A tree under construction.

ghost use Rattle.std.specs.Prelude.{◌≡◌, IfOk};
ghost use Rattle.slab.specs.Slab.{ContainsKey};
ghost use Rattle.npp_tree.specs.Arena.{Takes};

use crate::bound::Bound;
use crate::node::{Branch, CertNode, CertTree, Evidence};
use npp_frac::Exact;
use npp_net::{Listed, Memory};
use slab::Slab;
use std::alloc::Global;
use std::marker::Model;

/// A tree of branch and bound while it grows. Its nodes have keys, by which callers name them; no two have the same, and
/// a node keeps its own.
///
/// A node is made without evidence. It is settled when it is opened, and may then be split.
#[derive(Drop)]
pub struct GrowTree<N: Exact> {
    alloc: Global,
    nodes: Slab<GrowNode<N>>,
    root: usize,
}

/// A node of the slab.
#[derive(Drop)]
struct GrowNode<N> {
    evidence: Evidence<N>,
    bound: Bound,
    below: Below,
}

/// What comes below a node.
#[derive(Drop)]
enum Below {
    Leaf,
    Children {
        commodity: u32,
        part: Listed<u32>,
        first: usize,
        second: usize,
    },
}

impl<N: Exact> Model for GrowTree<N> {
    ghost use Rattle.npp_tree.specs.Tree.{Tree};
    ghost use Rattle.npp_tree.specs.Keyed.{Held};
    ghost use Rattle.npp_tree.specs.Codes.{tree_code, held_code};

    ghost Value = { Tree Held };

    ghost coded = { tree_code held_code };

    ghost use Rattle.npp_tree.specs.Arena.{whole_tree, IsHeld};

    ghost view = { λ t. whole_tree N.rational t.nodes t.root };

    ghost invariant = { λ t. IsHeld N.rational t.nodes t.root (whole_tree N.rational t.nodes t.root) };
}

/// A leaf that was not opened.
fn unopened_node<N: Exact>(bound: Bound) -> GrowNode<N>
    ensures { result ≡ record { evidence = Evidence.Unopened; bound = bound; below = Below.Leaf } }
{
    GrowNode {
        evidence: Evidence::Unopened,
        bound,
        below: Below::Leaf,
    }
}

/// Takes a node out of the slab, and puts the keys of its children on the stack, the first child's on top.
fn take_node<N: Exact>(
    nodes: &mut Slab<GrowNode<N>>,
    waiting: &mut Vec<usize>,
    key: usize,
) -> Result<CertNode<N>, Memory>
    requires { ContainsKey nodes.old key }
    ensures { IfOk result (λ taken. Takes nodes.old nodes.new key waiting.old.items waiting.new.items taken) }
{
    let GrowNode {
        evidence,
        bound,
        below,
    } = nodes.remove(key);
    let branch = match below {
        Below::Leaf => Branch::Leaf,
        Below::Children {
            commodity,
            part,
            first,
            second,
        } => {
            waiting.reserve(2)?;
            waiting.push_reserved(second);
            waiting.push_reserved(first);
            Branch::Split { commodity, part }
        }
    };
    Ok(CertNode {
        evidence,
        branch,
        bound,
    })
}

impl<N: Exact> GrowTree<N> {
    ghost use Rattle.std.specs.Prelude.{◌≡◌, IfOk, OnErr, map};
    ghost use Rattle.npp_tree.specs.Bounds.{bound_value};
    ghost use Rattle.npp_tree.specs.Evidence.{evidence_value};
    ghost use Rattle.npp_tree.specs.Outcome.{entry_value};
    ghost use Rattle.npp_tree.specs.Tree.{Leaf, preorder};
    ghost use Rattle.npp_tree.specs.Keyed.{root_key, IsUnopenedLeaf, IsOpenedLeaf, AreFresh, HasKeys, unopened, settled, split_at, without_keys};

    /// A tree of one node, which is not opened, with its bound.
    pub fn new(alloc: Global, root: Bound) -> Result<GrowTree<N>, Memory>
        ensures { IfOk result (λ t. t ≡ Leaf (unopened (root_key t) (bound_value root))) }
    {
        let mut nodes = Slab::new(alloc);
        let root = nodes.insert(unopened_node(root))?;
        Ok(GrowTree { alloc, nodes, root })
    }

    /// The key of the root.
    pub fn root(&self) -> usize
        ensures key { result ≡ root_key self.now }
        ensures keys { HasKeys self.now }
    {
        self.root
    }

    /// Gives an unopened leaf its evidence and its bound.
    pub fn settle(&mut self, node: usize, evidence: Evidence<N>, bound: Bound)
        requires { IsUnopenedLeaf self.old node }
        ensures { self.new ≡ settled self.old (record { key = node; node = record { evidence = evidence_value N.rational evidence; bound = bound_value bound } }) }
    {
        let leaf = &mut self.nodes[node];
        leaf.evidence = evidence;
        leaf.bound = bound;
    }

    /// Splits a settled leaf by a part of what it allows a commodity, by rising path number. The two children have these
    /// bounds; their keys are answered. Where memory is wanting the tree stays as it was.
    pub fn split(
        &mut self,
        node: usize,
        commodity: u32,
        part: Vec<u32>,
        first: Bound,
        second: Bound,
    ) -> Result<(usize, usize), Memory>
        requires { IsOpenedLeaf self.old node }
        ensures ok { IfOk result (λ keys. self.new ≡ split_at self.old node (record { commodity = commodity; part = part.items })
            (unopened keys.0 (bound_value first)) (unopened keys.1 (bound_value second))) }
        ensures fresh { IfOk result (λ keys. AreFresh self.old keys.0 keys.1) }
        ensures err { OnErr result (self.new ≡ self.old) }
    {
        self.nodes.reserve(2)?;
        let first = self.nodes.insert_reserved(unopened_node(first));
        let second = self.nodes.insert_reserved(unopened_node(second));
        let leaf = &mut self.nodes[node];
        leaf.below = Below::Children {
            commodity,
            part: Listed::of(part),
            first,
            second,
        };
        Ok((first, second))
    }

    /// The same nodes in preorder.
    pub fn freeze(self) -> Result<CertTree<N>, Memory>
        ensures { IfOk result (λ tree. map (entry_value N.rational) tree.nodes ≡ preorder (without_keys self)) }
    {
        let GrowTree {
            alloc,
            mut nodes,
            root,
        } = self;
        let mut frozen = Vec::with_capacity(alloc, nodes.len())?;
        let mut waiting = Vec::new(alloc);
        waiting.push(root)?;
        while let Some(key) = waiting.pop() {
            let node = take_node(&mut nodes, &mut waiting, key)?;
            frozen.push(node)?;
        }
        Ok(CertTree {
            nodes: Listed::of(frozen),
        })
    }
}
