//! How nodes begin.

ghost use Rattle.std.specs.Prelude.{◌≡◌, ◌<◌, ◌^◌, not, Ok};
ghost use Rattle.npp_rows.specs.Parts.{is_full};
ghost use Rattle.npp_tree.specs.Bounds.{bound_value, at_whole};
ghost use Rattle.npp_tree.specs.Items.{item_of};
ghost use Rattle.npp_check.specs.NodeLines.{opening_line};
ghost use Rattle.npp_check.specs.declared.block.Opening.{Opening};
ghost use Rattle.npp_check.specs.declared.refusal.Rule.{Rule};
ghost use Rattle.npp_check.specs.Rules.{broken_if};
ghost use Rattle.npp_check.specs.Steps.{is_of_choice};

use crate::block::{Answer, Opening};
use crate::refusal::Rule;
use npp_frac::{Exact, Frac128};
use npp_rows::Allowed;
use npp_tree::{Bound, Item};

/// How a node with this family begins. A full choice can have an answer of its inverse program, and every other node one of
/// its relaxation. Whether it is one is asked only where the node has an answer.
pub fn opening_line<N: Exact>(allowed: &Allowed, item: &Item<N>) -> Result<Opening, Rule>
    ensures { result ≡ opening_line (is_full allowed.now.parts) (item_of N.rational item.now) }
{
    match item {
        Item::Open => Ok(Opening::NotOpened),
        Item::Basic(mark) => Ok(Opening::Marked(*mark)),
        Item::Dual(count) => answered(!is_full(allowed), Answer::OfDual, *count),
        Item::Farkas(count) => answered(!is_full(allowed), Answer::OfFarkas, *count),
        Item::Inverse(count) => answered(is_full(allowed), Answer::OfInverse, *count),
        Item::NoInverse(count) => answered(is_full(allowed), Answer::OfNoInverse, *count),
        _ => Err(Rule::Order),
    }
}

/// An answer of so many multipliers, where the node can have it.
fn answered(can: bool, answer: Answer, count: u32) -> Result<Opening, Rule>
    ensures { result ≡ broken_if (not can) Rule.Evidence (Ok (Opening.Answered answer count)) }
{
    if can {
        Ok(Opening::Answered(answer, count))
    } else {
        Err(Rule::Evidence)
    }
}

/// Whether an answer is of the inverse program of a full choice.
pub fn is_of_choice(answer: Answer) -> bool
    ensures { result ≡ is_of_choice answer }
{
    matches!(answer, Answer::OfInverse | Answer::OfNoInverse)
}

/// Whether one path is allowed for each commodity.
pub fn is_full(allowed: &Allowed) -> bool
    ensures { result ≡ is_full allowed.now.parts }
{
    npp_rows::is_full(allowed.parts.entries())
}

/// A whole number as a bound.
pub fn whole_bound(number: u128) -> Bound
    requires { number < 2 ^ 63 }
    ensures { bound_value result ≡ at_whole number }
{
    Bound::At(Frac128::of_whole(number as i64))
}
