//! The places of the nodes that are still to come.

use crate::changes::{note, undo};
use crate::later::{Change, Later};
use npp_net::{Listed, Memory};
use npp_rows::Allowed;
use npp_tree::Bound;
use std::alloc::Global;
use std::marker::Model;
use std::mem;

/// The places of the nodes that are still to come. Only the family of the first one is held: a split keeps what it takes
/// away, and puts it back where the second child begins.
#[derive(Drop)]
pub struct Places {
    allowed: Allowed,
    parent: Bound,
    later: Vec<Later>,
}

impl Model for Places {
    ghost use Rattle.std.specs.Prelude.{length, All};
    ghost use Rattle.npp_tree.specs.Bounds.{bound_value};
    ghost use Rattle.npp_check.specs.PlaceStack.{PlaceList, later_places, IsInRange};

    ghost Value = { PlaceList };

    ghost view = { λ p. record {
      first = record { parts = p.allowed.parts; parent = bound_value p.parent };
      later = later_places p.later.items p.allowed.parts;
    } };

    ghost invariant = { λ p. All (IsInRange (length p.allowed.parts)) p.later.items };
}

impl Places {
    ghost use Rattle.std.specs.Prelude.{◌≡◌, ◌<◌, [], ◌∷◌, length, slice_set, true, false, Ok, OnOk};
    ghost use Rattle.npp_tree.specs.Bounds.{bound_value};

    /// The place of a node alone, with the bound of its parent.
    pub fn one(alloc: Global, allowed: Allowed, parent: Bound) -> Places
        ensures { result ≡ record { first = record { parts = allowed.parts; parent = bound_value parent }; later = [] } }
    {
        Places {
            allowed,
            parent,
            later: Vec::new(alloc),
        }
    }

    /// What the first node allows.
    pub fn allowed(&self) -> &Allowed
        ensures { result.now.parts ≡ self.now.first.parts }
    {
        &self.allowed
    }

    /// The bound of its parent.
    pub fn parent(&self) -> Bound
        ensures { bound_value result ≡ self.now.first.parent }
    {
        self.parent
    }

    /// Goes on to the places behind the first one. Where there are none the answer is false.
    pub fn advance(&mut self, alloc: Global) -> Result<bool, Memory>
        ensures next { result ≡ Ok true → self.old.later ≡ self.new.first ∷ self.new.later }
        ensures none { result ≡ Ok false → self.old.later ≡ [] }
    {
        let Some(next) = self.later.pop() else {
            return Ok(false);
        };
        let Later {
            commodity,
            whole,
            rest,
            parent,
            changes,
        } = next;
        let allowed = mem::replace(&mut self.allowed.parts, Listed::of(Vec::new(alloc)));
        let mut parts = allowed.into_entries();
        undo(&mut parts, changes);
        parts[commodity as usize] = rest;
        self.allowed.parts = Listed::of(parts);
        self.parent = parent;
        note(
            &mut self.later,
            Change {
                commodity,
                part: whole,
            },
        )?;
        Ok(true)
    }

    /// Puts the two children of the first node in its place. The children allow a commodity these paths, the first child
    /// the part and the second the rest, and have this parent's bound.
    pub fn split(
        &mut self,
        alloc: Global,
        commodity: u32,
        part: Listed<u32>,
        rest: Listed<u32>,
        bound: Bound,
    ) -> Result<(), Memory>
        requires { commodity < length self.old.first.parts }
        ensures { OnOk result (self.new ≡ record {
          first = record { parts = slice_set self.old.first.parts commodity part; parent = bound_value bound };
          later = record { parts = slice_set self.old.first.parts commodity rest; parent = bound_value bound } ∷ self.old.later;
        }) }
    {
        let allowed = mem::replace(&mut self.allowed.parts, Listed::of(Vec::new(alloc)));
        let mut parts = allowed.into_entries();
        let whole = mem::replace(&mut parts[commodity as usize], part);
        self.allowed.parts = Listed::of(parts);
        self.parent = bound;
        self.later.push(Later {
            commodity,
            whole,
            rest,
            parent: bound,
            changes: Vec::new(alloc),
        })?;
        Ok(())
    }
}
