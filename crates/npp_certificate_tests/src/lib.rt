//! Tests of certificates: whole ones that are accepted, and altered ones with the first line that breaks a rule.
#![tactic(auto)]

#[cfg(test)]
mod answers;
#[cfg(test)]
mod cuts;
#[cfg(test)]
mod items;
#[cfg(test)]
mod limits;
#[cfg(test)]
mod roads;
#[cfg(test)]
mod shared_road;
#[cfg(test)]
mod writers;
