//! Where each piece of a list of pieces begins.

ghost use Rattle.std.specs.Prelude.{◌≡◌, ◌≤◌, length, slice_index_or, [], IfOk};
ghost use Rattle.npp_cover.specs.Replaces.{sum_below};
ghost use Rattle.npp_rows.specs.PathModel.{no_cover};
ghost use Rattle.npp_rows.specs.Limits.{path_total};
ghost use Rattle.npp_rows.specs.Parts.{part_at};
ghost use Rattle.npp_rows.specs.Starts.{starts_of};

use npp_cover::Cover;
use npp_net::{Listed, Memory};
use std::alloc::Global;

/// Where the paths of each cover begin where they all stand in one list, and its end.
pub(crate) fn path_starts(alloc: Global, covers: &[Cover]) -> Result<Vec<u32>, Memory>
    requires { path_total covers.now ≤ 16777216 }
    ensures { IfOk result (λ v.
        v.items ≡ starts_of (λ k. length (slice_index_or covers.now k no_cover).paths) (length covers.now)) }
{
    let mut starts = Vec::new(alloc);
    let mut total = 0;
    for cover in covers {
        starts.push(total)?;
        total += cover.paths().len() as u32;
    }
    starts.push(total)?;
    Ok(starts)
}

/// Where the numbers of each list begin where they all stand in one list, and its end.
pub(crate) fn list_starts(alloc: Global, lists: &[Listed<u32>]) -> Result<Vec<u32>, Memory>
    requires { sum_below (λ k. length (part_at lists.now k)) (length lists.now) ≤ 16777216 }
    ensures { IfOk result (λ v. v.items ≡ starts_of (λ k. length (part_at lists.now k)) (length lists.now)) }
{
    let mut starts = Vec::new(alloc);
    let mut total = 0;
    for list in lists {
        starts.push(total)?;
        total += list.entries().len() as u32;
    }
    starts.push(total)?;
    Ok(starts)
}
