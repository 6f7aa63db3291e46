//! The two formats of a text.

ghost use Rattle.std.specs.Prelude.{◌≡◌, ◌∷◌, is_some};
ghost use Rattle.std.specs.List.{list_any};
ghost use Rattle.npp_reader.specs.Lines.{fields_of};
ghost use Rattle.npp_reader.specs.Format as format;
ghost use Rattle.npp_reader.specs.Canonical.{format_for};

use crate::line::one_field;
use npp_net::NetArc;

/// A format of instance texts, which the header names.
#[derive(Clone, Copy, Debug, PartialEq, Eq)]
pub(crate) enum Format {
    /// Toll arcs have no ceilings.
    One,
    /// The line of a toll arc has a field for its ceiling.
    Two,
}

/// The format that the header names whose first field is this word, or None where it is no header.
pub(crate) fn format_named(word: &[u8], rest: &[u8]) -> Option<Format>
    ensures { result ≡ format.format_named (word.now ∷ fields_of rest.now) }
{
    let number = one_field(rest)?;
    if word != b"npp".as_slice() {
        return None;
    }
    if number == b"1".as_slice() {
        return Some(Format::One);
    }
    if number == b"2".as_slice() {
        return Some(Format::Two);
    }
    None
}

/// Whether the lines of toll arcs have a field for the ceiling.
pub(crate) fn asks_ceiling(named: Option<Format>) -> bool
    ensures { result ≡ format.asks_ceiling named }
{
    match named {
        Some(Format::Two) => true,
        Some(Format::One) | None => false,
    }
}

/// Whether some arc has a ceiling.
fn have_ceiling(arcs: &[NetArc]) -> bool
    ensures { result ≡ list_any (λ x. is_some x.ceiling) arcs.now }
{
    arcs.iter().any(|x| x.ceiling.is_some())
}

/// The format in which these arcs are written.
pub(crate) fn format_for(arcs: &[NetArc]) -> Format
    ensures { result ≡ format_for arcs.now }
{
    if have_ceiling(arcs) {
        Format::Two
    } else {
        Format::One
    }
}
