//! Tests of the evidence of nodes, on the texts of small instances. What they expect comes from worked examples, or is computed by
//! `tests/values.py` from the definitions alone.
#![tactic(auto)]

#[cfg(test)]
mod accepted;
#[cfg(test)]
mod certificates;
#[cfg(test)]
mod found;
#[cfg(test)]
mod marks;
#[cfg(test)]
mod nodes;
