//! The family of all useful paths.

ghost use Rattle.std.specs.Prelude.{◌≡◌, IfOk};
ghost use Rattle.std.specs.List.{range_with_len};
ghost use Rattle.npp_rows.specs.Parts.{all_paths};

use crate::allowed::Allowed;
use crate::table::PathTable;
use npp_net::{Listed, Memory};
use std::alloc::Global;

impl PathTable<'_> {
    /// The family that allows all useful paths.
    pub fn all_paths(&self, alloc: Global) -> Result<Allowed, Memory>
        ensures { IfOk result (λ allowed. allowed.parts ≡ all_paths self.now) }
    {
        let mut parts = Vec::new(alloc);
        for k in 0..self.commodities() {
            let part = numbers_below(alloc, self.paths(k).len() as u32)?;
            parts.push(Listed::of(part))?;
        }
        Ok(Allowed {
            parts: Listed::of(parts),
        })
    }
}

/// The numbers below this one, in order.
fn numbers_below(alloc: Global, count: u32) -> Result<Vec<u32>, Memory>
    ensures { IfOk result (λ v. v.items ≡ range_with_len 0 count) }
{
    let mut numbers = Vec::new(alloc);
    for number in 0..count {
        numbers.push(number)?;
    }
    Ok(numbers)
}
