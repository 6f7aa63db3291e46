//! Tests of branch and bound, on the texts of small instances. What they expect comes from worked examples, or is computed by
//! `tests/searches.py` from the definitions alone. The checker of certificates has to accept what each search finds.
#![tactic(auto)]

#[cfg(test)]
mod certificate;
#[cfg(test)]
mod ends;
#[cfg(test)]
mod found;
#[cfg(test)]
mod from;
#[cfg(test)]
mod items;
#[cfg(test)]
mod pickers;
#[cfg(test)]
mod reports;
#[cfg(test)]
mod small;
#[cfg(test)]
mod tree;
