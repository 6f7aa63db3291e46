//! The rows of a relaxation, each by its name.

ghost use Rattle.std.specs.Prelude.{◌≡◌, ◌<◌, ◌+◌, ◌++◌, ◌^◌, ℕ, pos, negsuc, length, map, slice_index_or, All, OnOk};
ghost use Rattle.npp_frac.specs.Rational.{whole};
ghost use Rattle.npp_lp.specs.Building.{term_at};
ghost use Rattle.npp_lp.specs.Meaning.{terms_of};
ghost use Rattle.npp_cover.specs.PathValue.{path_value};
ghost use Rattle.npp_cover.specs.Replaces.{path_at};
ghost use Rattle.npp_rows.specs.PathModel.{path_count};
ghost use Rattle.npp_rows.specs.Named.{terms_from};
ghost use Rattle.npp_rows.specs.Cuts.{IsCut};
ghost use Rattle.npp_rows.specs.Meaning.{cut_value};
ghost use Rattle.npp_rows.specs.Relax.{relaxation_columns, relaxation_entry, relaxation_right, allowed_tolls, follow_entry, below_entry, use_entry, link_entry};
ghost use Rattle.npp_rows.specs.Rows.{IsPaidOn, IsRow, paid_from};

use crate::cut::CutRow;
use crate::cut_entries::push_cut;
use crate::entries::{push_caps, push_costs, push_gaps, push_number, push_same, push_tolls};
use crate::index::RelaxationIndex;
use crate::names::RowName;
use crate::search::place_in;
use npp_cover::UsefulPath;
use npp_frac::Exact;
use npp_lp::Entry;
use npp_net::{Memory, TollId, TollSet};

impl RelaxationIndex<'_> {
    /// Writes the entries of a row of the relaxation with some cuts, in strictly rising columns and without zeros, in
    /// place of what the buffer held. It goes over the columns alone that such a row can have.
    pub fn write_row<N: Exact>(
        &self,
        cuts: &[CutRow<N>],
        row: RowName,
        entries: &mut Vec<Entry<N>>,
    ) -> Result<(), Memory>
        requires cuts { All (λ c. IsCut self.now.paths (cut_value N.rational c)) cuts.now }
        requires row { IsRow self.now.paths self.now.parts (length cuts.now) row }
        ensures { OnOk result (terms_of N.rational entries.new.items
            ≡ terms_from 0 (relaxation_entry self.now.paths (map (cut_value N.rational) cuts.now) row) (relaxation_columns self.now.paths self.now.parts)) }
    {
        entries.clear();
        match row {
            RowName::Cap(a) => push_number(entries, a, 1),
            RowName::Follow(k, q) => push_follow(self, k, q, entries),
            RowName::Below(a, k) => push_below(self, a, k, entries),
            RowName::Use(a, k) => push_use(self, a, k, entries),
            RowName::Link(a, k) => push_link(self, a, k, entries),
            RowName::One(k) => push_same(entries, self.first_share(k), self.part(k), 1),
            RowName::OneLow(k) => push_same(entries, self.first_share(k), self.part(k), -1),
            RowName::Cut(i) => push_cut(self, &cuts[i as usize], entries),
        }
    }

    /// The right side of a row of the relaxation with some cuts.
    pub fn right_side<N: Exact>(&self, cuts: &[CutRow<N>], row: RowName) -> N
        requires { IsRow self.now.paths self.now.parts (length cuts.now) row }
        ensures { N.rational result ≡ relaxation_right self.now.paths (map (cut_value N.rational) cuts.now) row }
    {
        let table = self.table();
        match row {
            RowName::Cap(a) => whole_number(table.cap(a)),
            RowName::Follow(k, q) => whole_number(table.cost(k, q)),
            RowName::Below(_, _) | RowName::Use(_, _) => N::of_whole(0),
            RowName::Link(a, _) => whole_number(table.cap(a)),
            RowName::One(_) => N::of_whole(1),
            RowName::OneLow(_) => N::of_whole(-1),
            RowName::Cut(i) => cuts[i as usize].right,
        }
    }
}

/// A whole number below 2^31.
pub(crate) fn whole_number<N: Exact>(number: u32) -> N
    requires { number < 2 ^ 31 }
    ensures { N.rational result ≡ whole (pos number) }
{
    N::of_whole(i64::from(number))
}

/// The column of what a commodity pays on a toll that its allowed paths use.
fn paid_column(index: &RelaxationIndex, a: u32, k: u32) -> u32
    requires { IsPaidOn index.now.paths index.now.parts a k }
    ensures place { (i : ℕ) × (i < length (allowed_tolls index.now.paths index.now.parts k))
        × (slice_index_or (allowed_tolls index.now.paths index.now.parts k) i a ≡ a) × (result ≡ paid_from index.now.paths index.now.parts k + i) }
    ensures toll { a < length index.now.paths.caps }
{
    let place = place_in(index.used(k), a).unwrap();
    index.first_paid(k) + place as u32
}

/// Adds the row of a commodity and one of its useful paths.
fn push_follow<N: Exact>(
    index: &RelaxationIndex,
    k: u32,
    q: u32,
    entries: &mut Vec<Entry<N>>,
) -> Result<(), Memory>
    requires k { k < length index.now.paths.covers }
    requires q { q < path_count index.now.paths k }
    ensures { OnOk result (terms_of N.rational entries.new.items ≡ terms_of N.rational entries.old.items
        ++ terms_from 0 (follow_entry index.now.paths k q) (relaxation_columns index.now.paths index.now.parts)) }
{
    let table = index.table();
    let paths = table.paths(k);
    push_tolls(entries, table.tolls(), toll_set(paths, q))?;
    push_costs(entries, index.first_share(k), paths, index.part(k))?;
    push_same(entries, index.first_paid(k), index.used(k), 1)
}

/// The tolls of a path.
pub(crate) fn toll_set(paths: &[UsefulPath], q: u32) -> TollSet
    requires { q < length paths.now }
    ensures { result ≡ (path_at (map path_value paths.now) q).tolls }
{
    paths[q as usize].tolls
}

/// Adds the row that what is paid on a toll is at most the toll.
fn push_below<N: Exact>(
    index: &RelaxationIndex,
    a: u32,
    k: u32,
    entries: &mut Vec<Entry<N>>,
) -> Result<(), Memory>
    requires { IsPaidOn index.now.paths index.now.parts a k }
    ensures { OnOk result (terms_of N.rational entries.new.items ≡ terms_of N.rational entries.old.items
        ++ terms_from 0 (below_entry a k) (relaxation_columns index.now.paths index.now.parts)) }
{
    push_number(entries, a, -1)?;
    push_number(entries, paid_column(index, a, k), 1)
}

/// Adds the row that a toll is paid only by paths that use it, and no more than they leave.
fn push_use<N: Exact>(
    index: &RelaxationIndex,
    a: u32,
    k: u32,
    entries: &mut Vec<Entry<N>>,
) -> Result<(), Memory>
    requires { IsPaidOn index.now.paths index.now.parts a k }
    ensures { OnOk result (terms_of N.rational entries.new.items ≡ terms_of N.rational entries.old.items
        ++ terms_from 0 (use_entry index.now.paths a k) (relaxation_columns index.now.paths index.now.parts)) }
{
    let table = index.table();
    let paid = paid_column(index, a, k);
    push_gaps(
        entries,
        index.first_share(k),
        table.paths(k),
        index.part(k),
        TollId(a),
        table.free_cost(k),
    )?;
    push_number(entries, paid, 1)
}

/// Adds the row that a commodity that uses a toll pays the whole toll.
fn push_link<N: Exact>(
    index: &RelaxationIndex,
    a: u32,
    k: u32,
    entries: &mut Vec<Entry<N>>,
) -> Result<(), Memory>
    requires { IsPaidOn index.now.paths index.now.parts a k }
    ensures { OnOk result (terms_of N.rational entries.new.items ≡ terms_of N.rational entries.old.items
        ++ terms_from 0 (link_entry index.now.paths a k) (relaxation_columns index.now.paths index.now.parts)) }
{
    let table = index.table();
    let paid = paid_column(index, a, k);
    push_number(entries, a, 1)?;
    push_caps(
        entries,
        index.first_share(k),
        table.paths(k),
        index.part(k),
        TollId(a),
        table.cap(a),
    )?;
    push_taken(entries, paid)
}

/// Adds a column, taken away once.
fn push_taken<N: Exact>(entries: &mut Vec<Entry<N>>, column: u32) -> Result<(), Memory>
    ensures { OnOk result (terms_of N.rational entries.new.items ≡ terms_of N.rational entries.old.items ++ term_at column (whole (negsuc 0))) }
{
    push_number(entries, column, -1)
}
