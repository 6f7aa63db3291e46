//! The multiplier lines of a node.

ghost use Rattle.std.specs.Prelude.{◌≡◌, ◌<◌, ◌↔◌, ◌==◌, length, map, slice_index_or, All, IsTrue};
ghost use Rattle.std.specs.Int.{bit_at};
ghost use Rattle.std.specs.List.{list_any};
ghost use Rattle.npp_cover.specs.PathValue.{path_value};
ghost use Rattle.npp_cover.specs.Replaces.{path_at};
ghost use Rattle.npp_rows.specs.Caps.{path_model};
ghost use Rattle.npp_rows.specs.Lowering.{AreClosedCovers};
ghost use Rattle.npp_rows.specs.Meaning.{multiplier_value};
ghost use Rattle.npp_rows.specs.Parts.{IsAllowed, is_full};
ghost use Rattle.npp_rows.specs.RowOrder.{has_row};
ghost use Rattle.npp_rows.specs.Rows.{IsPaidOn, IsRow, IsChoiceRow};
ghost use Rattle.npp_rows.specs.PathModel.{no_cover};
ghost use Rattle.npp_rows.specs.Taken.{last_row, is_after};
ghost use Rattle.npp_tree.specs.Items.{item_of};
ghost use Rattle.npp_check.specs.Descents.{IsDescent, first_program};
ghost use Rattle.npp_check.specs.Multipliers.{multiplier_line};
ghost use Rattle.npp_check.specs.Rules.{judged_as};

use crate::descent::Descent;
use crate::measured::Measured;
use crate::refusal::Rule;
use npp_cover::{Cover, UsefulPath};
use npp_frac::{Exact, is_positive};
use npp_net::{Instance, TollId};
use npp_rows::{Allowed, Multiplier, RowName};
use npp_tree::Item;

/// A multiplier above 0 of a row of the first node's program, behind those above it. `full` says whether the node is
/// a full choice.
pub fn multiplier_line<N: Exact>(
    measured: &Measured,
    descent: &Descent<N>,
    full: bool,
    above: &[Multiplier<N>],
    item: &Item<N>,
) -> Result<Multiplier<N>, Rule>
    requires tree { IsDescent N.rational measured.now.net descent.now }
    requires full { full ≡ is_full descent.now.places.first.parts }
    ensures { judged_as (multiplier_value N.rational) result ≡ multiplier_line (first_program N.rational measured.now.net descent.now)
        (map (multiplier_value N.rational) above.now) (item_of N.rational item.now) }
{
    let Item::Mult(multiplier) = item else {
        return Err(Rule::Order);
    };
    let row = multiplier.row;
    if !has_row(measured, descent, full, row) {
        return Err(Rule::Evidence);
    }
    if !is_behind(above, row) {
        return Err(Rule::Evidence);
    }
    if !is_positive(multiplier.value) {
        return Err(Rule::Evidence);
    }
    Ok(*multiplier)
}

/// Whether the first node's program has the row. `full` says whether the node is a full choice.
fn has_row<N: Exact>(measured: &Measured, descent: &Descent<N>, full: bool, row: RowName) -> bool
    requires tree { IsDescent N.rational measured.now.net descent.now }
    requires full { full ≡ is_full descent.now.places.first.parts }
    ensures { result ≡ has_row (first_program N.rational measured.now.net descent.now).rows row }
{
    let instance = measured.instance();
    let known = &descent.known;
    if full {
        is_choice_row(instance, &known.covers, row)
    } else {
        let allowed = descent.places.allowed();
        let cuts = known.cuts.len() as u32;
        is_row(instance, &known.covers, allowed, cuts, row)
    }
}

/// Whether the inverse program of a choice has the row.
fn is_choice_row(instance: &Instance, covers: &[Cover], row: RowName) -> bool
    requires { AreClosedCovers instance.now covers.now }
    ensures { IsTrue result ↔ IsChoiceRow (path_model instance.now covers.now) row }
{
    match row {
        RowName::Cap(toll) => toll < instance.tolls(),
        RowName::Follow(k, path) => is_path(covers, k, path),
        RowName::Below(_, _)
        | RowName::Use(_, _)
        | RowName::Link(_, _)
        | RowName::One(_)
        | RowName::OneLow(_)
        | RowName::Cut(_) => false,
    }
}

/// Whether the relaxation over these allowed paths, with so many cuts, has the row.
fn is_row(instance: &Instance, covers: &[Cover], allowed: &Allowed, cuts: u32, row: RowName) -> bool
    requires covers { AreClosedCovers instance.now covers.now }
    requires allowed { IsAllowed (path_model instance.now covers.now) allowed.now.parts }
    ensures { IsTrue result ↔ IsRow (path_model instance.now covers.now) allowed.now.parts cuts row }
{
    match row {
        RowName::Cap(toll) => toll < instance.tolls(),
        RowName::Follow(k, path) => is_path(covers, k, path),
        RowName::Below(toll, k) | RowName::Use(toll, k) | RowName::Link(toll, k) => {
            is_paid(instance, covers, allowed, toll, k)
        }
        RowName::One(k) | RowName::OneLow(k) => (k as usize) < covers.len(),
        RowName::Cut(cut) => cut < cuts,
    }
}

/// Whether a commodity has a path of this number.
fn is_path(covers: &[Cover], k: u32, path: u32) -> bool
    ensures { IsTrue result ↔ ((k < length covers.now) × (path < length (slice_index_or covers.now k no_cover).paths)) }
{
    let k = k as usize;
    k < covers.len() && (path as usize) < covers[k].paths().len()
}

/// Whether allowed paths of a commodity use a toll.
fn is_paid(instance: &Instance, covers: &[Cover], allowed: &Allowed, toll: u32, k: u32) -> bool
    requires covers { AreClosedCovers instance.now covers.now }
    requires allowed { IsAllowed (path_model instance.now covers.now) allowed.now.parts }
    ensures { IsTrue result ↔ IsPaidOn (path_model instance.now covers.now) allowed.now.parts toll k }
{
    let place = k as usize;
    if toll >= instance.tolls() || place >= covers.len() {
        return false;
    }
    let part = allowed.parts.entries()[place].entries();
    is_used(covers[place].paths(), part, TollId(toll))
}

/// Whether some path of a part uses the toll.
fn is_used(paths: &[UsefulPath], part: &[u32], toll: TollId) -> bool
    requires part { All (λ p. p < length paths.now) part.now }
    requires toll { toll.0 < 128 }
    ensures { result ≡ list_any (λ p. bit_at (path_at (map path_value paths.now) p).tolls toll.0 == 1) part.now }
{
    for path in part {
        if paths[*path as usize].tolls.has(toll) {
            return true;
        }
    }
    false
}

/// Whether a row stands behind that of the last multiplier.
fn is_behind<N: Exact>(above: &[Multiplier<N>], row: RowName) -> bool
    ensures { result ≡ is_after (last_row (map (multiplier_value N.rational) above.now)) row }
{
    match above.last() {
        Some(last) => last.row.is_before(row),
        None => true,
    }
}
