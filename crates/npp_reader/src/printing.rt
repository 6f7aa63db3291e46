//! Printing a document.

ghost use Rattle.std.specs.Prelude.{◌≡◌, ◌++◌, ◌<◌, ◌≤◌, Ok, length, map, All, IfOk, OnOk, string_bytes};
ghost use Rattle.std.specs.List.{flat_map};
ghost use Rattle.npp_net.specs.Network.{IsArc, IsCommodity};
ghost use Rattle.npp_reader.specs.Canonical.{canonical_text, line_of, node_fields, arc_fields, pair_fields};
ghost use Rattle.npp_reader.specs.Format.{header_fields};
ghost use Rattle.npp_reader.specs.Names.{AreNames};
ghost use Rattle.npp_reader.specs.Reading.{reading_of};

use crate::document::Document;
use crate::format::{Format, format_for};
use crate::names::Names;
use npp_net::{Commodity, Memory, NetArc, NodeId};
use std::alloc::Global;

/// The canonical text of a document: the header, then the nodes, the arcs and the commodities, each in order, with single
/// spaces, no leading zeros and a line feed after each line. The header is `npp 2` where an arc has a ceiling, and `npp 1`
/// elsewhere. Reading the text gives the document back.
pub fn print(alloc: Global, document: &Document) -> Result<String, Memory>
    requires { length document.now.names ≡ document.now.instance.nodes }
    ensures text { IfOk result (λ text. string_bytes text ≡ canonical_text document.now) }
    ensures reads_back { IfOk result (λ text. reading_of (string_bytes text) ≡ Ok document.now) }
{
    let names = &document.names;
    let arcs = document.instance.arcs();
    let commodities = document.instance.commodities();
    let format = format_for(arcs);
    let mut text = String::from_str(alloc, header(format))?;
    print_nodes(&mut text, names)?;
    print_arcs(&mut text, format, names, arcs)?;
    print_pairs(&mut text, names, commodities)?;
    Ok(text)
}

/// The header's line.
fn header(format: Format) -> &'static str
    ensures { result.now ≡ line_of (header_fields format) }
{
    match format {
        Format::One => "npp 1\n",
        Format::Two => "npp 2\n",
    }
}

fn print_nodes(text: &mut String, names: &Names) -> Result<(), Memory>
    requires few { length names.now ≤ 1000 }
    ensures lines { OnOk result (string_bytes text.new ≡ string_bytes text.old ++ flat_map line_of (map node_fields names.now)) }
    ensures names { AreNames names.now }
{
    for node in 0..names.len() {
        let name = names.name(NodeId(node as u32));
        write!(text, "node {name}\n")?;
    }
    Ok(())
}

fn print_arcs(
    text: &mut String,
    format: Format,
    names: &Names,
    arcs: &[NetArc],
) -> Result<(), Memory>
    requires { All (IsArc (length names.now)) arcs.now }
    ensures { OnOk result (string_bytes text.new ≡ string_bytes text.old ++ flat_map line_of (map (arc_fields format names.now) arcs.now)) }
{
    for x in arcs {
        print_arc(text, format, names, *x)?;
    }
    Ok(())
}

fn print_arc(text: &mut String, format: Format, names: &Names, x: NetArc) -> Result<(), Memory>
    requires { IsArc (length names.now) x }
    ensures { OnOk result (string_bytes text.new ≡ string_bytes text.old ++ line_of (arc_fields format names.now x)) }
{
    let tail = names.name(x.tail);
    let head = names.name(x.head);
    let cost = x.cost;
    if !x.toll {
        write!(text, "free {tail} {head} {cost}\n")?;
        return Ok(());
    }
    match (format, x.ceiling) {
        (Format::One, _) => write!(text, "toll {tail} {head} {cost}\n")?,
        (Format::Two, None) => write!(text, "toll {tail} {head} {cost} -\n")?,
        (Format::Two, Some(most)) => write!(text, "toll {tail} {head} {cost} {most}\n")?,
    }
    Ok(())
}

fn print_pairs(text: &mut String, names: &Names, commodities: &[Commodity]) -> Result<(), Memory>
    requires { All (IsCommodity (length names.now)) commodities.now }
    ensures { OnOk result (string_bytes text.new ≡ string_bytes text.old ++ flat_map line_of (map (pair_fields names.now) commodities.now)) }
{
    for k in commodities {
        print_pair(text, names, *k)?;
    }
    Ok(())
}

fn print_pair(text: &mut String, names: &Names, k: Commodity) -> Result<(), Memory>
    requires { IsCommodity (length names.now) k }
    ensures { OnOk result (string_bytes text.new ≡ string_bytes text.old ++ line_of (pair_fields names.now k)) }
{
    let origin = names.name(k.origin);
    let destination = names.name(k.destination);
    let demand = k.demand;
    write!(text, "pair {origin} {destination} {demand}\n")?;
    Ok(())
}
