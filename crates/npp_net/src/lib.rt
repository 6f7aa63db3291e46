//! The network pricing problem: a network with toll arcs and its commodities, walks, and the definitions of what tolls
//! earn, on which every other crate stands.
#![tactic(auto)]

mod ends;
mod index;
mod instance;
mod limits;
mod listed;
mod lists;
mod refusal;
mod toll_set;
mod tolls;
mod types;
mod walk;

pub use instance::Instance;
pub use limits::{MAX_ARCS, MAX_CEILING, MAX_COMMODITIES, MAX_NODES, MAX_NUMBER, MAX_TOLLS};
pub use listed::Listed;
pub use lists::empty_lists;
pub use refusal::NetRefusal;
pub use toll_set::{TollSet, TollsOfSet};
pub use tolls::Tolls;
pub use types::{ArcId, Commodity, Memory, NetArc, NodeId, Span, TollId, Walk};
pub use walk::{is_walk, walk_cost, walk_tolls};
