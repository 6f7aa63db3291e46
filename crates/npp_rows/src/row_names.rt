//! The rows of a relaxation in order, by their names.

ghost use Rattle.std.specs.Prelude.{◌≡◌, ◌<◌, ◌≤◌, ◌^◌, ◌++◌, length, map, flat_map, OnOk};
ghost use Rattle.std.specs.List.{range_with_len};
ghost use Rattle.npp_rows.specs.declared.names.RowName.TheVariants.{Follow as follow_row};
ghost use Rattle.npp_rows.specs.PathModel.{commodities};
ghost use Rattle.npp_rows.specs.Relax.{relaxation_rows, cap_rows, follow_rows, on_allowed_tolls};
ghost use Rattle.npp_rows.specs.KindNames.{single_name, pair_name};

use crate::index::RelaxationIndex;
use crate::names::RowName;
use crate::table::PathTable;
use npp_net::Memory;

/// The kinds of rows that have one number.
#[derive(Clone, Copy)]
enum Single {
    Caps,
    Ones,
    OneLows,
    Cuts,
}

/// The kinds of rows of a toll and a commodity.
#[derive(Clone, Copy)]
enum Pair {
    Belows,
    Uses,
    Links,
}

impl Single {
    fn name(self, number: u32) -> RowName
        ensures { result ≡ single_name self number }
    {
        match self {
            Single::Caps => RowName::Cap(number),
            Single::Ones => RowName::One(number),
            Single::OneLows => RowName::OneLow(number),
            Single::Cuts => RowName::Cut(number),
        }
    }
}

impl Pair {
    fn name(self, a: u32, k: u32) -> RowName
        ensures { result ≡ pair_name self a k }
    {
        match self {
            Pair::Belows => RowName::Below(a, k),
            Pair::Uses => RowName::Use(a, k),
            Pair::Links => RowName::Link(a, k),
        }
    }
}

impl PathTable<'_> {
    /// Writes the names of the rows of the inverse program of a choice, in order, in place of what the list held. Each choice has
    /// the same.
    pub(crate) fn list_rows(&self, rows: &mut Vec<RowName>) -> Result<(), Memory>
        ensures { OnOk result (rows.new.items ≡ cap_rows self.now ++ flat_map (follow_rows self.now) (commodities self.now)) }
    {
        rows.clear();
        push_singles(rows, Single::Caps, self.tolls())?;
        push_follows(rows, self)
    }
}

impl RelaxationIndex<'_> {
    /// Writes the names of the rows of the relaxation with so many cuts, in order, in place of what the list held.
    pub(crate) fn list_rows(&self, rows: &mut Vec<RowName>, cuts: u32) -> Result<(), Memory>
        ensures { OnOk result (rows.new.items ≡ relaxation_rows self.now.paths self.now.parts cuts) }
    {
        let table = self.table();
        table.list_rows(rows)?;
        push_pairs(rows, self, Pair::Belows)?;
        push_pairs(rows, self, Pair::Uses)?;
        push_pairs(rows, self, Pair::Links)?;
        push_singles(rows, Single::Ones, table.commodities())?;
        push_singles(rows, Single::OneLows, table.commodities())?;
        push_singles(rows, Single::Cuts, cuts)
    }
}

/// Adds rows of a kind, numbered from 0.
fn push_singles(rows: &mut Vec<RowName>, kind: Single, count: u32) -> Result<(), Memory>
    ensures { OnOk result (rows.new.items ≡ rows.old.items ++ map (single_name kind) (range_with_len 0 count)) }
{
    for i in 0..count {
        rows.push(kind.name(i))?;
    }
    Ok(())
}

/// Adds the rows of the useful paths of all commodities.
fn push_follows(rows: &mut Vec<RowName>, table: &PathTable) -> Result<(), Memory>
    ensures { OnOk result (rows.new.items ≡ rows.old.items ++ flat_map (follow_rows table.now) (commodities table.now)) }
{
    for k in 0..table.commodities() {
        push_paths(rows, k, table.paths(k).len() as u32)?;
    }
    Ok(())
}

/// Adds the rows of the useful paths of a commodity.
fn push_paths(rows: &mut Vec<RowName>, k: u32, count: u32) -> Result<(), Memory>
    ensures { OnOk result (rows.new.items ≡ rows.old.items ++ map (follow_row k) (range_with_len 0 count)) }
{
    for q in 0..count {
        rows.push(RowName::Follow(k, q))?;
    }
    Ok(())
}

/// Adds the rows of a kind of the tolls that allowed paths use.
fn push_pairs(rows: &mut Vec<RowName>, index: &RelaxationIndex, kind: Pair) -> Result<(), Memory>
    ensures { OnOk result (rows.new.items ≡ rows.old.items ++ on_allowed_tolls index.now.paths index.now.parts (pair_name kind)) }
{
    for k in 0..index.table().commodities() {
        push_tolls(rows, kind, index.used(k), k)?;
    }
    Ok(())
}

/// Adds the rows of a kind of these tolls and a commodity.
fn push_tolls(rows: &mut Vec<RowName>, kind: Pair, tolls: &[u32], k: u32) -> Result<(), Memory>
    ensures { OnOk result (rows.new.items ≡ rows.old.items ++ map (λ a. pair_name kind a k) tolls.now) }
{
    for toll in tolls {
        rows.push(kind.name(*toll, k))?;
    }
    Ok(())
}
