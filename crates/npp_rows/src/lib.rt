//! The linear programs of a network pricing problem: best tolls for chosen paths, a relaxation over allowed paths, and
//! rows derived from them that every outcome meets.
#![tactic(auto)]

mod allowed;
mod basic;
mod choice;
mod conflict;
mod conflict_rows;
mod cut;
mod cut_entries;
mod derivation;
mod entries;
mod goals;
mod index;
mod mark;
mod multiplier_fault;
mod multipliers;
mod named_sums;
mod names;
mod pair;
mod places;
mod program_room;
mod refusal;
mod relaxed;
mod response;
mod round;
mod row;
mod row_feed;
mod row_names;
mod row_order;
mod search;
mod size;
mod starts;
mod table;
mod toll_caps;
mod touched;
mod touched_sums;
mod undercut;
mod whole;

pub use allowed::{Allowed, first_choice, is_full};
pub use basic::basic_of;
pub use choice::inverse;
pub use cut::{CutFault, CutRow, CutTerm, Derivation};
pub use derivation::check_derivation;
pub use index::RelaxationIndex;
pub use mark::{Mark, Step};
pub use multiplier_fault::MultiplierFault;
pub use named_sums::NamedSums;
pub use names::{ColumnName, Multiplier, RowName};
pub use program_room::ProgramRoom;
pub use refusal::RelaxRefusal;
pub use relaxed::{relaxation, relaxation_any_size};
pub use response::Response;
pub use table::PathTable;
pub use toll_caps::caps;
