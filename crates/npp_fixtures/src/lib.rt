//! What tests and yardsticks are made of: instances by their texts, with their useful covers, families, choices and cuts of their
//! paths, numbers that are written for every width, and certificates.
#![tactic(auto)]

mod certificates;
mod cube;
mod cuts;
mod families;
mod multipliers;
mod networks;
mod numbers;

pub use certificates::{
    THREE_PAIRS, THREE_PAIRS_CERTIFICATE, TWO_ROADS, TWO_ROADS_CERTIFICATE, with_lines,
};
pub use cube::bent_cube;
pub use cuts::{Cuts, are_cuts, cut, cuts_of};
pub use families::{all_allowed, family, is_choice, is_family};
pub use multipliers::{Named, multipliers_of};
pub use networks::{covers_of, instance_of};
pub use numbers::{Number, fraction, write_numbers};
