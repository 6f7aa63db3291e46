//! The lines of the head, down to the ceilings: what each says, or the first rule that it breaks.

ghost use Rattle.std.specs.Prelude.{◌≡◌, ◌<◌, ◌==◌, ◌&&◌, length};
ghost use Rattle.npp_check.specs.Rules.{judged_as};
ghost use Rattle.npp_net.specs.Network.{toll_count};
ghost use Rattle.npp_tree.specs.Items.{item_of};
ghost use Rattle.npp_check.specs.HeadLines.{header_line, status_line, width_line, lower_line, upper_line, opened_line, instance_line, limit_line};

use crate::refusal::Rule;
use npp_frac::Exact;
use npp_net::{Instance, TollId};
use npp_tree::{Item, Status};

/// Whether the certificate is in the second form.
pub fn header_line<N: Exact>(instance: &Instance, item: &Item<N>) -> Result<bool, Rule>
    ensures { result ≡ header_line instance.now (item_of N.rational item.now) }
{
    match item {
        Item::Header => {
            if instance.tolls() > 64 {
                Err(Rule::Instance)
            } else {
                Ok(false)
            }
        }
        Item::HeaderTwo => Ok(true),
        _ => Err(Rule::Order),
    }
}

/// How the search ended.
pub fn status_line<N: Exact>(item: &Item<N>) -> Result<Status, Rule>
    ensures { result ≡ status_line (item_of N.rational item.now) }
{
    match item {
        Item::StatusIs(status) => Ok(*status),
        _ => Err(Rule::Order),
    }
}

/// The width of its numbers.
pub fn width_line<N: Exact>(item: &Item<N>) -> Result<u32, Rule>
    ensures { result ≡ width_line (item_of N.rational item.now) }
{
    match item {
        Item::Width(width) => Ok(*width),
        _ => Err(Rule::Order),
    }
}

/// The lower value.
pub fn lower_line<N: Exact>(item: &Item<N>) -> Result<N, Rule>
    ensures { judged_as N.rational result ≡ lower_line (item_of N.rational item.now) }
{
    match item {
        Item::Lower(value) => Ok(*value),
        _ => Err(Rule::Order),
    }
}

/// The upper value.
pub fn upper_line<N: Exact>(item: &Item<N>) -> Result<N, Rule>
    ensures { judged_as N.rational result ≡ upper_line (item_of N.rational item.now) }
{
    match item {
        Item::Upper(value) => Ok(*value),
        _ => Err(Rule::Order),
    }
}

/// How many nodes were opened.
pub fn opened_line<N: Exact>(item: &Item<N>) -> Result<u32, Rule>
    ensures { result ≡ opened_line (item_of N.rational item.now) }
{
    match item {
        Item::Opened(count) => Ok(*count),
        _ => Err(Rule::Order),
    }
}

/// The sizes of the instance are those that are named.
pub fn instance_line<N: Exact>(instance: &Instance, item: &Item<N>) -> Result<(), Rule>
    ensures { result ≡ instance_line instance.now (item_of N.rational item.now) }
{
    match item {
        Item::InstanceIs {
            nodes,
            arcs,
            tolls,
            commodities,
        } => {
            if has_sizes(instance, *nodes, *arcs, *tolls, *commodities) {
                Ok(())
            } else {
                Err(Rule::Instance)
            }
        }
        _ => Err(Rule::Order),
    }
}

/// Whether these are the sizes of the instance.
fn has_sizes(instance: &Instance, nodes: u32, arcs: u32, tolls: u32, commodities: u32) -> bool
    ensures { result ≡ ((nodes == instance.now.nodes) && (arcs == length instance.now.arcs) && (tolls == toll_count instance.now.arcs) && (commodities == length instance.now.commodities)) }
{
    nodes == instance.nodes()
        && arcs as usize == instance.arcs().len()
        && tolls == instance.tolls()
        && commodities as usize == instance.commodities().len()
}

/// The ceiling of the toll arc of this number is the one that is named.
pub fn limit_line<N: Exact>(
    instance: &Instance,
    toll: TollId,
    item: &Item<N>,
) -> Result<Option<u32>, Rule>
    requires { toll.0 < toll_count instance.now.arcs }
    ensures { result ≡ limit_line instance.now toll.0 (item_of N.rational item.now) }
{
    match item {
        Item::Limit {
            toll: named,
            ceiling,
        } => {
            if *named != toll.0 {
                Err(Rule::Order)
            } else if *ceiling != instance.ceiling(toll) {
                Err(Rule::Instance)
            } else {
                Ok(*ceiling)
            }
        }
        _ => Err(Rule::Order),
    }
}
