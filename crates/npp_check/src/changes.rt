//! Changes of a family, and how they are undone.

ghost use Rattle.std.specs.Prelude.{◌≡◌, ◌<◌, ℕ, List, length, slice_set, All, OnOk};
ghost use Rattle.npp_tree.specs.Family.{Family};
ghost use Rattle.npp_check.specs.PlaceStack.{undone, later_places, IsInRange};

use crate::later::{Change, Later};
use npp_net::{Listed, Memory};

/// Undoes changes of a family, the last one first.
pub fn undo(parts: &mut Vec<Listed<u32>>, mut changes: Vec<Change>)
    requires { All (λ change. change.commodity < length parts.old.items) changes.items }
    ensures family { parts.new.items ≡ undone changes.items parts.old.items }
    ensures size { length parts.new.items ≡ length parts.old.items }
{
    while let Some(change) = changes.pop() {
        let Change { commodity, part } = change;
        parts[commodity as usize] = part;
    }
}

/// Notes a change of the family with the second child that comes next, if any is to come.
pub fn note(later: &mut Vec<Later>, change: Change) -> Result<(), Memory>
    ensures places { OnOk result ((family : Family) → later_places later.new.items family
        ≡ later_places later.old.items (slice_set family change.commodity change.part)) }
    ensures range { (n : ℕ) → change.commodity < n → All (IsInRange n) later.old.items → All (IsInRange n) later.new.items }
{
    let Some(next) = later.last_mut() else {
        return Ok(());
    };
    next.changes.push(change)?;
    Ok(())
}
