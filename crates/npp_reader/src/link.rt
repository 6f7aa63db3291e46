//! What the lines of arcs and of commodities have in common: two nodes, a number and maybe a ceiling.

ghost use Rattle.std.specs.Prelude.{◌≡◌, ◌≤◌, ◌^◌, length};
ghost use Rattle.npp_reader.specs.Lines.{fields_of};
ghost use Rattle.npp_reader.specs.Grammar.{judged, link_faults, link_said};
ghost use Rattle.npp_reader.specs.Grammar as grammar;

use crate::field::{allowed, amount_of, ceiling_of, name_of, number_of};
use crate::kind::LineKind;
use crate::line::{four_fields, three_fields};
use crate::names::Names;
use npp_net::NodeId;

/// Two nodes, a number and a ceiling or none.
#[derive(Clone, Copy)]
pub(crate) struct Link {
    pub(crate) from: NodeId,
    pub(crate) to: NodeId,
    pub(crate) number: u32,
    pub(crate) ceiling: Option<u32>,
}

/// The link of the fields that stand behind the word of a line, the last of them a ceiling where that is asked for.
#[tactic(auto, unfolding(crate::specs::Grammar::link_of))]
pub(crate) fn link_of(names: &Names, rest: &[u8], asked: bool) -> Result<Link, LineKind>
    requires few { length names.now ≤ 2 ^ 32 }
    ensures link { result ≡ grammar.link_of asked names.now (fields_of rest.now) }
{
    if asked {
        let Some((from, to, number, ceiling)) = four_fields(rest) else {
            return Err(LineKind::FieldCount);
        };
        judged_link(names, from, to, number, ceiling)
    } else {
        let Some((from, to, number)) = three_fields(rest) else {
            return Err(LineKind::FieldCount);
        };
        judged_link(names, from, to, number, b"-")
    }
}

/// The link of these fields.
fn judged_link(
    names: &Names,
    from: &[u8],
    to: &[u8],
    number: &[u8],
    ceiling: &[u8],
) -> Result<Link, LineKind>
    requires few { length names.now ≤ 2 ^ 32 }
    ensures link { result ≡ judged (link_faults names.now from.now to.now number.now ceiling.now)
        (link_said names.now from.now to.now number.now ceiling.now) }
{
    let from = name_of(from)?;
    let to = name_of(to)?;
    let number = number_of(number)?;
    let ceiling = ceiling_of(ceiling)?;
    let number = amount_of(number)?;
    let ceiling = allowed(ceiling)?;
    let Some(from) = names.find(from) else {
        return Err(LineKind::UnknownNode);
    };
    let Some(to) = names.find(to) else {
        return Err(LineKind::UnknownNode);
    };
    Ok(Link {
        from,
        to,
        number,
        ceiling,
    })
}
