//! Lists by node.

ghost use Rattle.std.specs.Prelude.{◌≡◌, length, All, IfOk, []};

use std::alloc::{AllocError, Global};

/// One empty list for each node.
pub fn empty_lists<T: Drop>(alloc: Global, nodes: u32) -> Result<Vec<Vec<T>>, AllocError>
    ensures count { IfOk result (λ v. length v.items ≡ nodes) }
    ensures empty { IfOk result (λ v. All (λ list. list.items ≡ []) v.items) }
{
    let mut lists = Vec::new(alloc);
    while lists.len() < nodes as usize {
        lists.push(Vec::new(alloc))?;
    }
    Ok(lists)
}
