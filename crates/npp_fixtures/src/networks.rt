//! Small instances by their texts, with their useful covers.

ghost use Rattle.std.specs.Prelude.{◌≤◌, IfOk};
ghost use Rattle.npp_rows.specs.Limits.{path_total};
ghost use Rattle.npp_rows.specs.Lowering.{AreClosedCovers};

use npp_bounds::free_and_zero;
use npp_cover::Cover;
use npp_labels::{CoversRefusal, useful_all};
use npp_net::Instance;
use npp_reader::{ReadRefusal, read};
use std::alloc::Global;

/// The instance of a text.
pub fn instance_of(alloc: Global, text: &str) -> Result<Instance, ReadRefusal> {
    Ok(read(alloc, text.as_bytes())?.instance)
}

/// The useful covers of an instance whose commodities have toll-free walks; one without such a walk counts as want of memory.
pub fn covers_of(alloc: Global, instance: &Instance) -> Result<Vec<Cover>, CoversRefusal>
    ensures covers { IfOk result (λ covers. AreClosedCovers instance.now covers.items) }
    ensures few { IfOk result (λ covers. path_total covers.items ≤ 16777216) }
{
    match free_and_zero(alloc, instance) {
        Ok(spans) => useful_all(alloc, instance, &spans),
        Err(_) => Err(CoversRefusal::Memory),
    }
}
