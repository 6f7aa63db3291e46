//! The text of an outcome, from its first line to its last.

ghost use Rattle.std.specs.Prelude.{string_bytes};
ghost use Rattle.npp_outside.specs.Sink.{WritesWhole, HasSinkCause};
ghost use Rattle.npp_tree.specs.Outcome.{outcome_value};
ghost use Rattle.npp_writer.specs.OutcomeText.{outcome_text};

use crate::gathered::put_evidence;
use crate::head::report;
use npp_cover::Cover;
use npp_frac::Exact;
use npp_net::Instance;
use npp_outside::{Sink, SinkAnswer, write_whole};
use npp_tree::Outcome;
use std::alloc::Global;

/// Writes the text of an outcome: its certificate, or where `brief` is true its report alone.
///
/// The covers are those of the instance, one for each commodity in order. The text is a certificate 2, which names the
/// instance by its sizes and the ceiling of each toll arc, where an arc has a ceiling or there are over 64 toll arcs,
/// and else a certificate 1. On an error a part of it was written that is not the whole.
pub fn write_certificate<N: Exact, O: Sink>(
    alloc: Global,
    instance: &Instance,
    covers: &[Cover],
    outcome: &Outcome<N>,
    brief: bool,
    out: &mut O,
) -> Result<(), SinkAnswer>
    ensures written { WritesWhole (O.written out.old) (O.written out.new)
        (outcome_text brief N.WIDTH instance.now covers.now (outcome_value N.rational outcome.now)) result }
    ensures cause { HasSinkCause (O.faults out.old) (O.faults out.new) result }
{
    let Ok(mut text) = report(alloc, instance, outcome) else {
        return Err(SinkAnswer::Memory);
    };
    if brief {
        return write_whole(out, text.as_bytes());
    }
    put_evidence(alloc, &mut text, covers, outcome, out)?;
    write_whole(out, text.as_bytes())
}
