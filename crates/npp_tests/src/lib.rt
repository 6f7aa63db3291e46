//! Tests of programs and their named rows, of derived rows, of replies to tolls, and of best tolls, on the texts of small instances. What they
//! expect comes from worked examples, or is computed by `tests/values.py` from the definitions alone.
#![tactic(auto)]

#[cfg(test)]
mod caps;
#[cfg(test)]
mod derivations;
#[cfg(test)]
mod named;
#[cfg(test)]
mod replies;
#[cfg(test)]
mod rows;
