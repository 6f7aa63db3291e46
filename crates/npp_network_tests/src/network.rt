//! Networks by their texts, and what is said of covers.

use npp_cover::Cover;
use npp_net::Instance;
use npp_reader::{ReadRefusal, read};
use std::alloc::{AllocError, Global};

/// A detour by a toll arc that costs 2, a second toll arc on it that gains nothing, and a direct arc that costs 10.
pub(crate) const DETOUR: &str =
    "npp 1\nnode 0\nnode 1\nnode 2\nfree 0 2 10\ntoll 0 1 1\nfree 1 2 1\ntoll 1 2 1\npair 0 2 1\n";

/// The instance of a text.
pub(crate) fn instance_of(alloc: Global, text: &str) -> Result<Instance, ReadRefusal> {
    Ok(read(alloc, text.as_bytes())?.instance)
}

/// How many labels a cover has, and of each path the number of its set, its cost and its arcs.
pub(crate) fn cover_text(alloc: Global, cover: &Cover) -> Result<String, AllocError> {
    let mut text = format!(in alloc; "{} labels", cover.labels().len())?;
    for path in cover.paths() {
        let number = path.tolls.number();
        write!(text, ", {number} at {} by {:?}", path.cost, path.walk.arcs)?;
    }
    Ok(text)
}
