//! The entries of a cut row.

ghost use Rattle.std.specs.Prelude.{◌≡◌, ◌<◌, ◌++◌, length, OnOk};
ghost use Rattle.npp_lp.specs.Meaning.{terms_of};
ghost use Rattle.npp_rows.specs.PathModel.{path_count};
ghost use Rattle.npp_rows.specs.Parts.{IsPart, part_at};
ghost use Rattle.npp_rows.specs.Named.{terms_from};
ghost use Rattle.npp_rows.specs.Cuts.{IsCut};
ghost use Rattle.npp_rows.specs.Meaning.{cut_value, cut_term_value};
ghost use Rattle.npp_rows.specs.Relax.{relaxation_columns, cut_entry};
ghost use Rattle.npp_rows.specs.Rows.{IsShareWritten};

use crate::cut::{CutRow, CutTerm};
use crate::index::RelaxationIndex;
use crate::search::place_in;
use npp_frac::Exact;
use npp_lp::Entry;
use npp_net::Memory;

/// Adds a cut row, without the terms of paths that are not allowed.
pub(crate) fn push_cut<N: Exact>(
    index: &RelaxationIndex,
    cut: &CutRow<N>,
    entries: &mut Vec<Entry<N>>,
) -> Result<(), Memory>
    requires { IsCut index.now.paths (cut_value N.rational cut.now) }
    ensures { OnOk result (terms_of N.rational entries.new.items ≡ terms_of N.rational entries.old.items
        ++ terms_from 0 (cut_entry (cut_value N.rational cut.now)) (relaxation_columns index.now.paths index.now.parts)) }
{
    for term in cut.terms.entries() {
        push_share(index, *term, entries)?;
    }
    Ok(())
}

/// Adds a term of a cut row where its path is allowed.
fn push_share<N: Exact>(
    index: &RelaxationIndex,
    term: CutTerm<N>,
    entries: &mut Vec<Entry<N>>,
) -> Result<(), Memory>
    requires { term.commodity < length index.now.paths.covers }
    ensures written { OnOk result (IsShareWritten index.now.paths index.now.parts (cut_term_value N.rational term)
        (terms_of N.rational entries.old.items) (terms_of N.rational entries.new.items)) }
    ensures part { IsPart (path_count index.now.paths term.commodity) (part_at index.now.parts term.commodity) }
{
    let place = place_in(index.part(term.commodity), term.path);
    if let Some(place) = place {
        entries.push(Entry {
            column: index.first_share(term.commodity) + place as u32,
            value: term.value,
        })?;
    }
    Ok(())
}
