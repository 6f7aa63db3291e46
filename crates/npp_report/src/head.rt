//! The lines of a report before its tolls.

ghost use Rattle.std.specs.Prelude.{◌≡◌, ◌++◌, ◌∷◌, [], map, is_some, OnOk, string_bytes, if◌then◌else◌};
ghost use Rattle.std.specs.List.{list_any, range_with_len};
ghost use Rattle.npp_frac.specs.Wide.{value_of_wide};
ghost use Rattle.npp_net.specs.Network.{toll_count, ceiling_of};
ghost use Rattle.npp_tree.specs.declared.item.Item.TheVariants as item;
ghost use Rattle.npp_tree.specs.Lines.{instance_lines};
ghost use Rattle.npp_report.specs.Lines.{status_word, item_line, text_of};
ghost use Rattle.npp_report.specs.Report.{names_instance};

use crate::lines::write_fraction;
use crate::report::Report;
use npp_frac::Exact;
use npp_net::{Instance, Memory, NetArc, TollId};
use npp_tree::Status;
use std::alloc::Global;
use std::fmt::Write;

/// The most toll arcs of an instance without ceilings that need not be named.
const UNNAMED_TOLLS: u32 = 64;

/// Whether a report or a certificate names the instance: where an arc has a ceiling, or there are over 64 toll arcs.
pub fn names_instance(instance: &Instance) -> bool
    ensures { result ≡ names_instance instance.now }
{
    have_ceiling(instance.arcs()) || UNNAMED_TOLLS < instance.tolls()
}

/// Whether some arc has a ceiling.
fn have_ceiling(arcs: &[NetArc]) -> bool
    ensures { result ≡ list_any (λ x. is_some x.ceiling) arcs.now }
{
    arcs.iter().any(|x| x.ceiling.is_some())
}

/// The first line of a report or a certificate: of the second form where it names the instance.
pub fn header(names_instance: bool) -> &'static str
    ensures { result.now ≡ item_line (if names_instance then item.HeaderTwo else item.Header) }
{
    if names_instance {
        "npp-certificate 2\n"
    } else {
        "npp-certificate 1\n"
    }
}

/// The word of a status.
fn status_word(status: Status) -> &'static str
    ensures { result.now ≡ status_word status }
{
    match status {
        Status::Optimal => "optimal",
        Status::Budget => "budget",
        Status::Overflow => "overflow",
    }
}

/// The status, the width, the two values, and how many nodes were opened.
pub(crate) fn write_values<N: Exact>(
    alloc: Global,
    text: &mut String,
    report: &Report<N>,
) -> Result<(), Memory>
    ensures { OnOk result (string_bytes text.new ≡ string_bytes text.old ++ text_of
        (item.StatusIs report.now.status ∷ item.Width N.WIDTH ∷ item.Lower (value_of_wide report.now.lower)
        ∷ item.Upper (value_of_wide report.now.upper) ∷ item.Opened report.now.opened ∷ [])) }
{
    let status = status_word(report.status);
    write!(text, "status {status}\nwidth {}\nlower ", N::WIDTH)?;
    write_fraction(alloc, text, report.lower)?;
    write!(text, "\nupper ")?;
    write_fraction(alloc, text, report.upper)?;
    writeln!(text, "\nopened {}", report.opened)?;
    Ok(())
}

/// Where the instance is named, its sizes and the ceiling of each toll arc, a dash for none.
pub fn write_instance(
    text: &mut String,
    names_instance: bool,
    instance: &Instance,
) -> Result<(), Memory>
    ensures { OnOk result (string_bytes text.new ≡ string_bytes text.old
        ++ text_of (if names_instance then instance_lines instance.now else [])) }
{
    if !names_instance {
        return Ok(());
    }
    let nodes = instance.nodes();
    let arcs = instance.arcs().len();
    let commodities = instance.commodities().len();
    let tolls = instance.tolls();
    writeln!(text, "instance {nodes} {arcs} {tolls} {commodities}")?;
    write_limits(text, instance)
}

/// The ceiling of each toll arc, a dash for none.
fn write_limits(text: &mut String, instance: &Instance) -> Result<(), Memory>
    ensures { OnOk result (string_bytes text.new ≡ string_bytes text.old
        ++ text_of (map (λ a. item.Limit a (ceiling_of instance.now.arcs a)) (range_with_len 0 (toll_count instance.now.arcs)))) }
{
    for toll in 0..instance.tolls() {
        write_limit(text, toll, instance.ceiling(TollId(toll)))?;
    }
    Ok(())
}

/// The line of a ceiling.
fn write_limit(text: &mut String, toll: u32, ceiling: Option<u32>) -> Result<(), Memory>
    ensures { OnOk result (string_bytes text.new ≡ string_bytes text.old ++ item_line (item.Limit toll ceiling)) }
{
    match ceiling {
        None => writeln!(text, "limit {toll} -")?,
        Some(most) => writeln!(text, "limit {toll} {most}")?,
    }
    Ok(())
}
