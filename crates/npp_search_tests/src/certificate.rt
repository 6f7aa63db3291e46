//! What the checker of certificates answers to some items.

ghost use Rattle.std.specs.Prelude.{IsTrue, All};
ghost use Rattle.npp_tree.specs.Items.{HasShortLists};

use npp_check::check;
use npp_frac::{Exact, Frac128};
use npp_net::Instance;
use npp_tree::{Item, Outcome};
use std::alloc::Global;
use std::cmp::Ordering;
use std::test::Fail;

/// How many entries a list of an item may not have.
const MANY: usize = 4_294_967_296;

/// Whether each list of an item has fewer entries than that.
fn is_short(item: &Item<Frac128>) -> bool
    ensures { IsTrue result → HasShortLists item.now }
{
    match item {
        Item::Path { arcs, .. } => arcs.len() < MANY,
        Item::Free { arcs } => arcs.len() < MANY,
        Item::Pair { cuts, .. } => cuts.len() < MANY,
        Item::Split { part, .. } => part.len() < MANY,
        _ => true,
    }
}

/// Whether that holds of all items.
fn are_short(items: &[Item<Frac128>]) -> bool
    ensures { IsTrue result → All HasShortLists items.now }
{
    for item in items {
        if !is_short(item) {
            return false;
        }
    }
    true
}

/// Fails unless the checker accepts these items with both values of the outcome.
pub(crate) fn accept<N: Exact>(
    alloc: Global,
    instance: &Instance,
    items: Vec<Item<Frac128>>,
    outcome: &Outcome<N>,
) -> Result<(), Fail> {
    if !are_short(&items) {
        return Err("a list is too long")?;
    }
    let pair = check(alloc, instance, items)?;
    let lower = pair.lower.cmp(outcome.lower);
    let upper = pair.upper.cmp(outcome.upper);
    if (lower, upper) != (Ordering::Equal, Ordering::Equal) {
        return Err("the certificate proves other values")?;
    }
    Ok(())
}
