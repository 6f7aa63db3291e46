//! The names of the nodes.

ghost use Rattle.std.specs.Prelude.{◌≡◌, ◌≢◌, ◌++◌, ◌∷◌, [], ◌<◌, ◌≤◌, ◌^◌, ◌↔◌, ℕ, List, length, true, false, All, AllPairs, IsTrue, IfOk, OnOk, OnErr, MatchOption, slice_index_or, string_bytes};
ghost use Rattle.npp_reader.specs.Fields.{is_name};
ghost use Rattle.npp_reader.specs.Names.{AreNames, texts, is_declared, node_of};

use indexmap::IndexSet;
use npp_net::{Memory, NodeId};
use std::alloc::Global;
use std::marker::Model;

/// The names of the nodes in the order of their numbers. Each has 1 to 32 bytes of letters, digits, `_`, `-` and `.`,
/// and they differ.
#[derive(Drop)]
pub struct Names {
    index: IndexSet<String>,
}

impl Model for Names {
    ghost use Rattle.std.specs.Prelude.{ℕ, List};
    ghost use Rattle.npp_reader.specs.Names.{AreNames, texts};

    ghost Value = { List (List ℕ) };

    ghost view = { λ n. texts n.index.keys };

    ghost invariant = { λ n. AreNames (texts n.index.keys) };
}

impl Names {
    /// No names.
    pub(crate) fn empty(alloc: Global) -> Names
        ensures { result ≡ [] }
    {
        Names {
            index: IndexSet::new(alloc),
        }
    }

    /// These names, in their order.
    pub fn new(alloc: Global, names: Vec<String>) -> Result<Names, Memory>
        requires { AreNames (texts names.items) }
        ensures { IfOk result (λ taken. taken ≡ texts names.items) }
    {
        let mut index = IndexSet::new(alloc);
        for name in names {
            index.insert(name)?;
        }
        Ok(Names { index })
    }

    /// How many names there are.
    pub fn len(&self) -> usize
        ensures count { result ≡ length self.now }
        ensures names { AreNames self.now }
    {
        self.index.len()
    }

    /// Whether there is no name.
    pub fn is_empty(&self) -> bool
        ensures { IsTrue result ↔ (self.now ≡ []) }
    {
        self.index.is_empty()
    }

    /// The name of a node.
    pub fn name(&self, node: NodeId) -> &str
        requires { node.0 < length self.now }
        ensures { result.now ≡ slice_index_or self.now node.0 [] }
    {
        match self.index.get_index(node.0 as usize) {
            Some(name) => name.as_str(),
            None => unreachable!(),
        }
    }

    /// The node of a name, or None exactly where there is no such name.
    pub fn find(&self, name: &str) -> Option<NodeId>
        requires { length self.now ≤ 2 ^ 32 }
        ensures { MatchOption result
            (is_declared self.now name.now ≡ false)
            (λ node. (is_declared self.now name.now ≡ true) × (node ≡ node_of self.now name.now)) }
    {
        let index = self.index.get_index_of(name)?;
        Some(NodeId(index as u32))
    }

    /// Puts a name behind the others.
    pub(crate) fn push(&mut self, alloc: Global, name: &str) -> Result<(), Memory>
        requires is_name { is_name name.now ≡ true }
        requires differs { is_declared self.old name.now ≡ false }
        ensures { OnOk result (self.new ≡ self.old ++ name.now ∷ []) }
    {
        let name = String::from_str(alloc, name)?;
        self.index.insert(name)?;
        Ok(())
    }
}
