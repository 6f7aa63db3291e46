//! The numbers of toll arcs, both ways.

ghost use Rattle.std.specs.Prelude.{◌≡◌, ◌≤◌, ℕ, length, IfOk};
ghost use Rattle.npp_net.specs.Index.{ListsTolls, NumbersTolls};

use crate::types::{ArcId, NetArc, TollId};
use std::alloc::{AllocError, Global};

/// The arc of each toll number.
pub fn toll_arcs(alloc: Global, arcs: &[NetArc]) -> Result<Vec<ArcId>, AllocError>
    requires { length arcs.now ≤ 5000 }
    ensures { IfOk result (λ v. ListsTolls arcs.now v.items) }
{
    let mut found = Vec::new(alloc);
    for (i, x) in arcs.iter().enumerate() {
        if x.toll {
            found.push(ArcId(i as u32))?;
        }
    }
    Ok(found)
}

/// The toll number of each arc.
pub fn toll_numbers(alloc: Global, arcs: &[NetArc]) -> Result<Vec<Option<TollId>>, AllocError>
    requires { length arcs.now ≤ 5000 }
    ensures { IfOk result (λ v. NumbersTolls arcs.now v.items) }
{
    let mut numbers = Vec::new(alloc);
    let mut before: u32 = 0;
    for x in arcs {
        if x.toll {
            numbers.push(Some(TollId(before)))?;
            before += 1;
        } else {
            numbers.push(None)?;
        }
    }
    Ok(numbers)
}
