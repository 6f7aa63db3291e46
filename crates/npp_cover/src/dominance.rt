//! Which labels are dominated.

ghost use Rattle.std.specs.Prelude.{◌≡◌, ◌<◌, [], IfOk};
ghost use Rattle.npp_cover.specs.Dominance.{nodes_of, answer_of, AnswersFor, PutsIn};

use crate::blocks::{Block, Pair, put, some_block_has};
use crate::label::Label;
use npp_net::{NodeId, TollSet, empty_lists};
use std::alloc::{AllocError, Global};
use std::marker::Model;

/// Labels by their nodes, asked whether one of them dominates. How it is found is no part of what callers know.
#[derive(Drop)]
pub struct DominanceTable {
    by_node: Vec<Vec<Block>>,
}

impl Model for DominanceTable {
    ghost use Rattle.std.specs.Prelude.{map, All};
    ghost use Rattle.npp_cover.specs.Dominance.{TableValue};
    ghost use Rattle.npp_cover.specs.Blocks.{pairs_of, AreKeyed};

    ghost Value = { TableValue };

    ghost view = { λ t. map (λ blocks. pairs_of blocks.items) t.by_node.items };

    ghost invariant = { λ t. All (λ blocks. AreKeyed blocks.items) t.by_node.items };
}

impl DominanceTable {
    /// A table of so many nodes, with no label.
    pub fn new(alloc: Global, nodes: u32) -> Result<DominanceTable, AllocError>
        ensures nodes { IfOk result (λ t. nodes_of t ≡ nodes) }
        ensures empty { IfOk result (AnswersFor []) }
    {
        Ok(DominanceTable {
            by_node: empty_lists(alloc, nodes)?,
        })
    }

    /// This table with one more label.
    pub fn with(self, label: Label) -> Result<DominanceTable, AllocError>
        requires { label.node.0 < nodes_of self }
        ensures { IfOk result (PutsIn label self) }
    {
        let DominanceTable { mut by_node } = self;
        let pair = Pair {
            tolls: label.tolls,
            cost: label.cost,
        };
        put(&mut by_node[label.node.0 as usize], pair)?;
        Ok(DominanceTable { by_node })
    }

    /// Whether a label at the node has no toll outside the set, and a cost not above this one.
    pub fn dominates(&self, node: NodeId, tolls: TollSet, cost: u64) -> bool
        requires { node.0 < nodes_of self.now }
        ensures { result ≡ answer_of self.now node.0 tolls cost }
    {
        some_block_has(&self.by_node[node.0 as usize], tolls, cost)
    }
}
