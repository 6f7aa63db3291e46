//! Families and choices of useful paths.

ghost use Rattle.std.specs.Prelude.{◌<◌, ◌≤◌, IsTrue, IfOk, All};
ghost use Rattle.npp_net.specs.Network.{Network};
ghost use Rattle.npp_rows.specs.Caps.{path_model};
ghost use Rattle.npp_rows.specs.Limits.{path_total};
ghost use Rattle.npp_rows.specs.Lowering.{AreClosedCovers};
ghost use Rattle.npp_rows.specs.Parts.{IsPart, IsAllowed};
ghost use Rattle.npp_rows.specs.Rows.{IsChoice};

use npp_cover::Cover;
use npp_net::{Instance, Listed, Memory};
use npp_rows::{Allowed, PathTable};
use std::alloc::Global;

/// The family that allows all useful paths.
pub fn all_allowed(alloc: Global, instance: &Instance, covers: &[Cover]) -> Result<Allowed, Memory>
    requires covers { AreClosedCovers instance.now covers.now }
    requires few { path_total covers.now ≤ 16777216 }
    ensures { IfOk result (λ allowed. IsAllowed (path_model instance.now covers.now) allowed.parts) }
{
    let table = PathTable::new(alloc, instance, covers)?;
    let allowed = table.all_paths(alloc)?;
    Ok(allowed)
}

/// The family of these parts.
pub fn family(alloc: Global, parts: &[&[u32]]) -> Result<Allowed, Memory> {
    let mut lists = Vec::new(alloc);
    for part in parts {
        lists.push(Listed::of(Vec::from_slice(alloc, part)?))?;
    }
    Ok(Allowed {
        parts: Listed::of(lists),
    })
}

/// Whether a family has a part of the useful paths of each commodity.
pub fn is_family(covers: &[Cover], allowed: &Allowed) -> bool
    ensures { IsTrue result → (net : Network) → IsAllowed (path_model net covers.now) allowed.now.parts }
{
    are_parts(covers, allowed.parts.entries())
}

/// Whether these are a part of the useful paths of each commodity.
fn are_parts(covers: &[Cover], parts: &[Listed<u32>]) -> bool
    ensures { IsTrue result → (net : Network) → IsAllowed (path_model net covers.now) parts.now }
{
    if parts.len() != covers.len() {
        return false;
    }
    for k in 0..parts.len() {
        if !is_part(parts[k].entries(), covers[k].paths().len()) {
            return false;
        }
    }
    true
}

/// Whether these are some of so many paths, strictly rising, and at least one.
fn is_part(part: &[u32], count: usize) -> bool
    ensures { IsTrue result → IsPart count part.now }
{
    for (i, path) in part.iter().enumerate() {
        if *path as usize >= count || !are_below(&part[..i], *path) {
            return false;
        }
    }
    !part.is_empty()
}

/// Whether all of some numbers are below another.
fn are_below(numbers: &[u32], limit: u32) -> bool
    ensures { IsTrue result → All (λ n. n < limit) numbers.now }
{
    for number in numbers {
        if *number >= limit {
            return false;
        }
    }
    true
}

/// Whether a choice names one useful path of each commodity.
pub fn is_choice(covers: &[Cover], choice: &[u32]) -> bool
    ensures { IsTrue result → (net : Network) → IsChoice (path_model net covers.now) choice.now }
{
    if choice.len() != covers.len() {
        return false;
    }
    for (k, path) in choice.iter().enumerate() {
        if *path as usize >= covers[k].paths().len() {
            return false;
        }
    }
    true
}
