//! The best tolls of a choice: the program over the tolls alone under which the chosen paths are cheapest.

ghost use Rattle.std.specs.Prelude.{◌≡◌, ◌<◌, ◌≤◌, ◌^◌, ◌++◌, ◌==◌, ℕ, pos, negsuc, nat_abs, List, [], length, map, Some, IfOk, OnOk, if◌then◌else◌};
ghost use Rattle.std.specs.List.{range_with_len};
ghost use Rattle.std.specs.Int.{bit_at};
ghost use Rattle.npp_frac.specs.Rational.{◌-ℚ◌};
ghost use Rattle.npp_lp.specs.Building.{started};
ghost use Rattle.npp_lp.specs.Meaning.{linear_program, terms_of};
ghost use Rattle.npp_cover.specs.PathValue.{path_value};
ghost use Rattle.npp_cover.specs.Replaces.{path_at};
ghost use Rattle.npp_rows.specs.Caps.{path_model};
ghost use Rattle.npp_rows.specs.Limits.{path_total};
ghost use Rattle.npp_rows.specs.Lowering.{AreClosedCovers};
ghost use Rattle.npp_rows.specs.PathModel.{path_count, uses, demand_at, tolls};
ghost use Rattle.npp_rows.specs.Parts.{chosen, first_choice};
ghost use Rattle.npp_rows.specs.Promises.{InverseHolds, InverseIsExact};
ghost use Rattle.npp_rows.specs.Named.{one_if, terms_from, numbers_from, numbered};
ghost use Rattle.npp_rows.specs.declared.names.ColumnName.TheVariants.{Toll as toll_column};
ghost use Rattle.npp_rows.specs.Rows.{IsChoice, IsChoiceRow};
ghost use Rattle.npp_rows.specs.Inverse.{inverse, choice_rows, choice_entry, choice_right, revenue_goal, payers};

use crate::entries::push_number;
use crate::names::RowName;
use crate::program_room::ProgramRoom;
use crate::row::{toll_set, whole_number};
use crate::row_feed::feed;
use crate::table::PathTable;
use crate::undercut::{push_undercut, undercut_right};
use npp_cover::{Cover, UsefulPath};
use npp_frac::Exact;
use npp_lp::{Entry, Program, ProgramBuilder};
use npp_net::{Instance, Memory, TollId, TollSet};
use std::alloc::Global;

/// The inverse program of a choice, which names one useful path for each commodity.
///
/// Its columns are the tolls, from 0 to their caps, and its rows say that each chosen path costs no more than any useful
/// path of its commodity. Its goal is what the chosen paths pay, each commodity by its demand. So its points are exactly the
/// tolls up to the caps under which the chosen paths are cheapest over all walks, and its goal there is what they earn. The
/// covers are those of the instance, one for each commodity in order.
pub fn inverse<N: Exact>(
    alloc: Global,
    instance: &Instance,
    covers: &[Cover],
    choice: &[u32],
) -> Result<Program<N>, Memory>
    requires covers { AreClosedCovers instance.now covers.now }
    requires few { path_total covers.now ≤ 16777216 }
    requires choice { IsChoice (path_model instance.now covers.now) choice.now }
    ensures program { IfOk result (λ p. linear_program N.rational p ≡ numbered (inverse (path_model instance.now covers.now) choice.now)) }
    ensures exact { InverseIsExact instance.now (path_model instance.now covers.now) choice.now }
    ensures holds { (parts : List (List ℕ)) → first_choice parts ≡ choice.now → InverseHolds instance.now (path_model instance.now covers.now) parts }
{
    let table = PathTable::new(alloc, instance, covers)?;
    let mut room = ProgramRoom::new(alloc);
    table.inverse(alloc, &mut room, choice)
}

impl PathTable<'_> {
    /// The inverse program of a choice, made in a room.
    pub fn inverse<N: Exact>(
        &self,
        alloc: Global,
        room: &mut ProgramRoom<N>,
        choice: &[u32],
    ) -> Result<Program<N>, Memory>
        requires { IsChoice self.now choice.now }
        ensures program { IfOk result (λ p. linear_program N.rational p ≡ numbered (inverse self.now choice.now)) }
        ensures rows { OnOk result (room.new ≡ (inverse self.now choice.now).rows) }
    {
        self.list_rows(&mut room.rows)?;
        let builder = room.builder(alloc, self.tolls())?;
        let ProgramRoom { rows, entries, .. } = room;
        build(alloc, builder, self, choice, rows, entries)
    }
}

/// The program of the rows of a choice.
fn build<N: Exact>(
    alloc: Global,
    mut program: ProgramBuilder<N>,
    table: &PathTable,
    choice: &[u32],
    rows: &[RowName],
    entries: &mut Vec<Entry<N>>,
) -> Result<Program<N>, Memory>
    requires started { program ≡ started (length (tolls table.now)) }
    requires choice { IsChoice table.now choice.now }
    requires rows { rows.now ≡ choice_rows table.now (λ k. Some (chosen choice.now k)) }
    ensures { IfOk result (λ p. linear_program N.rational p ≡ numbered (inverse table.now choice.now)) }
{
    let list = program.goal_list(alloc);
    for row in rows {
        write_choice_row(table, choice, *row, entries)?;
        feed(&mut program, entries, choice_right(table, choice, *row))?;
    }
    let goal = choice_goal(list, table, choice)?;
    Ok(program.finish(goal))
}

/// Writes the entries of a row of the inverse program of a choice.
pub(crate) fn write_choice_row<N: Exact>(
    table: &PathTable,
    choice: &[u32],
    row: RowName,
    entries: &mut Vec<Entry<N>>,
) -> Result<(), Memory>
    requires choice { IsChoice table.now choice.now }
    requires row { IsChoiceRow table.now row }
    ensures { OnOk result (terms_of N.rational entries.new.items
        ≡ terms_from 0 (choice_entry table.now (λ k. Some (chosen choice.now k)) row) (map toll_column (tolls table.now))) }
{
    entries.clear();
    match row {
        RowName::Cap(a) => push_number(entries, a, 1),
        RowName::Follow(k, q) => push_undercut(entries, table, k, choice[k as usize], q),
        RowName::Below(_, _)
        | RowName::Use(_, _)
        | RowName::Link(_, _)
        | RowName::One(_)
        | RowName::OneLow(_)
        | RowName::Cut(_) => Ok(()),
    }
}

/// The right side of a row of the inverse program of a choice.
pub(crate) fn choice_right<N: Exact>(table: &PathTable, choice: &[u32], row: RowName) -> N
    requires choice { IsChoice table.now choice.now }
    requires row { IsChoiceRow table.now row }
    ensures { N.rational result ≡ choice_right table.now (λ k. Some (chosen choice.now k)) row }
{
    match row {
        RowName::Cap(a) => whole_number(table.cap(a)),
        RowName::Follow(k, q) => undercut_right(table, k, choice[k as usize], q),
        RowName::Below(_, _)
        | RowName::Use(_, _)
        | RowName::Link(_, _)
        | RowName::One(_)
        | RowName::OneLow(_)
        | RowName::Cut(_) => N::of_whole(0),
    }
}

/// The goal of the inverse program of a choice, in a list that is empty.
pub(crate) fn choice_goal<N: Exact>(
    mut goal: Vec<N>,
    table: &PathTable,
    choice: &[u32],
) -> Result<Vec<N>, Memory>
    requires empty { goal.items ≡ [] }
    requires choice { IsChoice table.now choice.now }
    ensures { IfOk result (λ v. map N.rational v.items ≡ map (revenue_goal table.now choice.now) (map toll_column (tolls table.now))) }
{
    for toll in 0..table.tolls() {
        goal.push(whole_number(payers(table, choice, TollId(toll))))?;
    }
    Ok(goal)
}

/// How many travellers pay a toll where each commodity takes its chosen path.
fn payers(table: &PathTable, choice: &[u32], toll: TollId) -> u32
    requires choice { IsChoice table.now choice.now }
    requires toll { toll.0 < 128 }
    ensures value { result ≡ payers table.now choice.now toll.0 }
    ensures small { result ≤ 100000000 }
{
    let mut sum = 0;
    for k in 0..table.commodities() {
        sum += payer(table, k, choice[k as usize], toll);
    }
    sum
}

/// How many travellers pay a toll where a commodity takes this path.
fn payer(table: &PathTable, k: u32, path: u32, toll: TollId) -> u32
    requires k { k < length table.now.covers }
    requires path { path < path_count table.now k }
    requires toll { toll.0 < 128 }
    ensures value { result ≡ (if uses table.now k path toll.0 then demand_at table.now k else 0) }
    ensures small { result ≤ 1000000 }
{
    if has_toll(table.paths(k), path, toll) {
        table.demand(k)
    } else {
        0
    }
}

/// Whether a path uses a toll.
fn has_toll(paths: &[UsefulPath], q: u32, toll: TollId) -> bool
    requires q { q < length paths.now }
    requires toll { toll.0 < 128 }
    ensures { result ≡ (bit_at (path_at (map path_value paths.now) q).tolls toll.0 == 1) }
{
    toll_set(paths, q).has(toll)
}

/// What a toll of the chosen path adds to a row, and one of another path takes away.
fn difference(chosen: TollSet, other: TollSet, toll: TollId) -> i64
    requires { toll.0 < 128 }
    ensures value { result ≡ (if bit_at chosen toll.0 == 1
        then (if bit_at other toll.0 == 1 then pos 0 else pos 1)
        else (if bit_at other toll.0 == 1 then negsuc 0 else pos 0)) }
    ensures small { nat_abs result < 2 ^ 31 }
{
    match (chosen.has(toll), other.has(toll)) {
        (true, false) => 1,
        (false, true) => -1,
        _ => 0,
    }
}

/// The tolls of the chosen path less those of another path.
pub(crate) fn push_differences<N: Exact>(
    entries: &mut Vec<Entry<N>>,
    tolls: u32,
    chosen: TollSet,
    other: TollSet,
) -> Result<(), Memory>
    requires { tolls ≤ 128 }
    ensures { OnOk result (terms_of N.rational entries.new.items
        ≡ terms_of N.rational entries.old.items ++ numbers_from 0 (λ b. one_if (bit_at chosen b == 1) -ℚ one_if (bit_at other b == 1)) (range_with_len 0 tolls)) }
{
    for toll in 0..tolls {
        push_number(entries, toll, difference(chosen, other, TollId(toll)))?;
    }
    Ok(())
}
