//! The labels that were taken.

ghost use Rattle.std.specs.Prelude.{◌≡◌, ◌<◌, ◌++◌, [], ◌∷◌, length, IfOk};
ghost use Rattle.npp_cover.specs.Labels.{label_at};
ghost use Rattle.npp_cover.specs.Fault.{is_dominated};

use npp_cover::{DominanceTable, Label};
use npp_net::Memory;
use std::alloc::Global;
use std::marker::Model;

/// Labels in the order in which they were taken, asked whether one of them dominates.
#[derive(Drop)]
pub struct Family {
    labels: Vec<Label>,
    table: DominanceTable,
}

impl Model for Family {
    ghost use Rattle.npp_cover.specs.Dominance.{nodes_of, AnswersFor};
    ghost use Rattle.npp_labels.specs.Lists.{Lists};

    ghost Value = { Lists };

    ghost view = { λ f. record { nodes = nodes_of f.table; labels = f.labels.items } };

    ghost invariant = { λ f. AnswersFor f.labels.items f.table };
}

impl Family {
    /// No label, at so many nodes.
    pub fn new(alloc: Global, nodes: u32) -> Result<Family, Memory>
        ensures { IfOk result (λ f. f ≡ record { nodes = nodes; labels = [] }) }
    {
        Ok(Family {
            labels: Vec::new(alloc),
            table: DominanceTable::new(alloc, nodes)?,
        })
    }

    /// How many labels there are.
    pub fn len(&self) -> usize
        ensures { result ≡ length self.now.labels }
    {
        self.labels.len()
    }

    /// The label of this number.
    pub fn label(&self, number: u32) -> Label
        requires { number < length self.now.labels }
        ensures { result ≡ label_at self.now.labels number }
    {
        self.labels[number as usize]
    }

    /// Whether a label at the same node has no other tolls and costs no more.
    pub fn dominates(&self, label: &Label) -> bool
        requires { label.now.node.0 < self.now.nodes }
        ensures { result ≡ is_dominated self.now.labels label.now.node.0 label.now.tolls label.now.cost }
    {
        self.table.dominates(label.node, label.tolls, label.cost)
    }

    /// These labels and one more.
    pub fn with(self, label: Label) -> Result<Family, Memory>
        requires { label.node.0 < self.nodes }
        ensures { IfOk result (λ f. f ≡ record { nodes = self.nodes; labels = self.labels ++ label ∷ [] }) }
    {
        let Family { mut labels, table } = self;
        labels.push(label)?;
        Ok(Family {
            labels,
            table: table.with(label)?,
        })
    }

    /// The labels, in order.
    pub fn into_labels(self) -> Vec<Label>
        ensures { result.items ≡ self.labels }
    {
        let Family { labels, table: _ } = self;
        labels
    }
}
