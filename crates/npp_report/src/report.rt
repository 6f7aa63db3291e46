//! What is said of an instance before the evidence for the upper value.

ghost use Rattle.std.specs.Prelude.{◌≡◌, IfOk, string_bytes};
ghost use Rattle.npp_report.specs.Report.{report_text, report_value};

use crate::head::{header, names_instance, write_instance, write_values};
use crate::lines::{write_paths, write_tolls};
use npp_frac::{Exact, Frac128};
use npp_net::{Instance, Listed, Memory, Tolls};
use npp_tree::{PathLine, Status};
use std::alloc::Global;

/// Tolls and walks, what they earn, and what no outcome exceeds.
#[derive(Debug, Drop)]
pub struct Report<N> {
    /// How the search ended.
    pub status: Status,
    /// What the tolls earn with these walks.
    pub lower: Frac128,
    /// What no tolls with any cheapest walks exceed.
    pub upper: Frac128,
    /// How many nodes were opened.
    pub opened: u32,
    /// The tolls, by the numbers of the toll arcs.
    pub tolls: Tolls<N>,
    /// The walks, by the numbers of the commodities.
    pub paths: Listed<PathLine<N>>,
}

/// The text of a report of an instance.
///
/// It names the instance, by its sizes and the ceiling of each toll arc, where an arc has a ceiling or there are over 64
/// toll arcs.
pub fn report_text<N: Exact>(
    alloc: Global,
    instance: &Instance,
    report: &Report<N>,
) -> Result<String, Memory>
    ensures { IfOk result (λ text. string_bytes text ≡ report_text instance.now N.WIDTH (report_value N.rational report.now)) }
{
    let second = names_instance(instance);
    let mut text = String::from_str(alloc, header(second))?;
    write_values(alloc, &mut text, report)?;
    write_instance(&mut text, second, instance)?;
    write_tolls(alloc, &mut text, report.tolls.values())?;
    write_paths(alloc, &mut text, report.paths.entries())?;
    Ok(text)
}
