//! What the children of a node allow.

ghost use Rattle.std.specs.Prelude.{◌≡◌, ◌<◌, ◌∷◌, [], length, IfOk};
ghost use Rattle.npp_tree.specs.Family.{first_of, second_of, rest_of};
ghost use Rattle.npp_search.specs.Rule.{division_by};

use crate::division::Division;
use npp_net::{Listed, Memory};
use npp_rows::Allowed;
use std::alloc::Global;

/// The families of both children.
pub(crate) fn divide(
    alloc: Global,
    allowed: Allowed,
    division: Division,
) -> Result<(Allowed, Allowed), Memory>
    requires { division.commodity < length allowed.parts }
    ensures first { IfOk result (λ both. both.0.parts ≡ first_of allowed.parts (division_by division.commodity division.path)) }
    ensures second { IfOk result (λ both. both.1.parts ≡ second_of allowed.parts (division_by division.commodity division.path)) }
{
    let k = division.commodity as usize;
    let mut second = allowed.parts.into_entries();
    let mut first = copy_parts(alloc, &second)?;
    first[k] = Listed::of(vec![in alloc; division.path]?);
    second[k] = Listed::of(others(alloc, second[k].entries(), division.path)?);
    Ok((
        Allowed {
            parts: Listed::of(first),
        },
        Allowed {
            parts: Listed::of(second),
        },
    ))
}

/// The same parts.
pub(crate) fn copy_parts(alloc: Global, parts: &[Listed<u32>]) -> Result<Vec<Listed<u32>>, Memory>
    ensures { IfOk result (λ copy. copy.items ≡ parts.now) }
{
    let mut copy = Vec::with_capacity(alloc, parts.len())?;
    for part in parts {
        copy.push(Listed::of(Vec::from_slice(alloc, part.entries())?))?;
    }
    Ok(copy)
}

/// The paths other than this one.
fn others(alloc: Global, part: &[u32], path: u32) -> Result<Vec<u32>, Memory>
    ensures { IfOk result (λ v. v.items ≡ rest_of (path ∷ []) part.now) }
{
    let mut rest = Vec::with_capacity(alloc, part.len())?;
    for q in part {
        if *q != path {
            rest.push(*q)?;
        }
    }
    Ok(rest)
}
