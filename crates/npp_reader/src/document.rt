//! A document: an instance with the names of its nodes.

use crate::names::Names;
use npp_net::Instance;

/// What the text of an instance declares.
#[derive(Drop)]
pub struct Document {
    /// The names of the nodes, in the order of their numbers.
    pub names: Names,
    /// The network and its commodities.
    pub instance: Instance,
}
