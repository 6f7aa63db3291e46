//! The relaxation over an allowed family.

ghost use Rattle.std.specs.Prelude.{◌≡◌, ◌<◌, ◌≤◌, ◌^◌, ◌++◌, ◌⊎◌, pos, [], true, false, length, map, replicate, All, IfOk, OnOk, MatchResult};
ghost use Rattle.npp_frac.specs.Rational.{whole};
ghost use Rattle.npp_lp.specs.Building.{started};
ghost use Rattle.npp_lp.specs.Meaning.{linear_program};
ghost use Rattle.npp_rows.specs.declared.refusal.RelaxRefusal.{RelaxRefusal};
ghost use Rattle.npp_rows.specs.Caps.{path_model};
ghost use Rattle.npp_rows.specs.Limits.{path_total};
ghost use Rattle.npp_rows.specs.Lowering.{AreClosedCovers};
ghost use Rattle.npp_rows.specs.Parts.{IsAllowed};
ghost use Rattle.npp_rows.specs.Promises.{RelaxationHolds};
ghost use Rattle.npp_rows.specs.Named.{numbered};
ghost use Rattle.npp_rows.specs.Cuts.{IsCut};
ghost use Rattle.npp_rows.specs.Meaning.{cut_value};
ghost use Rattle.npp_rows.specs.Relax.{relaxation, relaxation_rows, relaxation_columns, paid_goal, is_large};

use crate::allowed::Allowed;
use crate::cut::CutRow;
use crate::index::RelaxationIndex;
use crate::names::RowName;
use crate::program_room::ProgramRoom;
use crate::refusal::RelaxRefusal;
use crate::row::whole_number;
use crate::row_feed::feed;
use crate::table::PathTable;
use npp_cover::Cover;
use npp_frac::Exact;
use npp_lp::{Entry, Program, ProgramBuilder};
use npp_net::{Instance, Memory};
use std::alloc::Global;

/// The relaxation over an allowed family with some cuts, or `Large` exactly where its rows times its columns are over
/// 1,000,000.
///
/// It asks for the greatest sum of demand times what is paid. Its columns are the tolls, the shares of the allowed paths,
/// and what each commodity pays on each toll that its allowed paths use. Each outcome in which the commodities take allowed
/// paths at tolls up to the caps is a point of it. The covers are those of the instance, one for each commodity in order,
/// and the terms of each cut name useful paths, by rising commodity and path.
pub fn relaxation<N: Exact>(
    alloc: Global,
    instance: &Instance,
    covers: &[Cover],
    allowed: &Allowed,
    cuts: &[CutRow<N>],
) -> Result<Program<N>, RelaxRefusal>
    requires covers { AreClosedCovers instance.now covers.now }
    requires few { path_total covers.now ≤ 16777216 }
    requires allowed { IsAllowed (path_model instance.now covers.now) allowed.now.parts }
    requires cuts { All (λ c. IsCut (path_model instance.now covers.now) (cut_value N.rational c)) cuts.now }
    requires few_cuts { length cuts.now ≤ 16777216 }
    ensures program { IfOk result (λ p. linear_program N.rational p
        ≡ numbered (relaxation (path_model instance.now covers.now) allowed.now.parts (map (cut_value N.rational) cuts.now))) }
    ensures large { MatchResult result
        (λ p. is_large (relaxation (path_model instance.now covers.now) allowed.now.parts (map (cut_value N.rational) cuts.now)) ≡ false)
        (λ e. (e ≡ RelaxRefusal.Memory) ⊎ (is_large (relaxation (path_model instance.now covers.now) allowed.now.parts (map (cut_value N.rational) cuts.now)) ≡ true)) }
{
    let table = PathTable::new(alloc, instance, covers)?;
    let index = RelaxationIndex::new(alloc, &table, allowed)?;
    if index.is_large(cuts) {
        return Err(RelaxRefusal::Large);
    }
    let mut room = ProgramRoom::new(alloc);
    Ok(index.program(alloc, &mut room, cuts)?)
}

/// The relaxation over an allowed family with some cuts, whatever its size. Where each cut is met by every outcome, each
/// outcome in which the commodities take allowed paths at tolls up to the caps is a point of it, and the goal there is what
/// the outcome earns.
pub fn relaxation_any_size<N: Exact>(
    alloc: Global,
    instance: &Instance,
    covers: &[Cover],
    allowed: &Allowed,
    cuts: &[CutRow<N>],
) -> Result<Program<N>, Memory>
    requires covers { AreClosedCovers instance.now covers.now }
    requires few { path_total covers.now ≤ 16777216 }
    requires allowed { IsAllowed (path_model instance.now covers.now) allowed.now.parts }
    requires cuts { All (λ c. IsCut (path_model instance.now covers.now) (cut_value N.rational c)) cuts.now }
    requires few_cuts { length cuts.now ≤ 16777216 }
    ensures program { IfOk result (λ p. linear_program N.rational p
        ≡ numbered (relaxation (path_model instance.now covers.now) allowed.now.parts (map (cut_value N.rational) cuts.now))) }
    ensures holds { RelaxationHolds instance.now (path_model instance.now covers.now) allowed.now.parts (map (cut_value N.rational) cuts.now) }
{
    let table = PathTable::new(alloc, instance, covers)?;
    let index = RelaxationIndex::new(alloc, &table, allowed)?;
    let mut room = ProgramRoom::new(alloc);
    index.program(alloc, &mut room, cuts)
}

impl RelaxationIndex<'_> {
    /// The relaxation with some cuts, whatever its size, made in a room.
    pub fn program<N: Exact>(
        &self,
        alloc: Global,
        room: &mut ProgramRoom<N>,
        cuts: &[CutRow<N>],
    ) -> Result<Program<N>, Memory>
        requires cuts { All (λ c. IsCut self.now.paths (cut_value N.rational c)) cuts.now }
        requires few { length cuts.now ≤ 16777216 }
        ensures program { IfOk result (λ p. linear_program N.rational p ≡ numbered (relaxation self.now.paths self.now.parts (map (cut_value N.rational) cuts.now))) }
        ensures rows { OnOk result (room.new ≡ relaxation_rows self.now.paths self.now.parts (length cuts.now)) }
    {
        self.list_rows(&mut room.rows, cuts.len() as u32)?;
        let columns = self.first_paid(self.table().commodities());
        let builder = room.builder(alloc, columns)?;
        let ProgramRoom { rows, entries, .. } = room;
        build(alloc, builder, self, cuts, rows, entries)
    }
}

/// The program of the rows of a relaxation.
fn build<N: Exact>(
    alloc: Global,
    mut program: ProgramBuilder<N>,
    index: &RelaxationIndex,
    cuts: &[CutRow<N>],
    rows: &[RowName],
    entries: &mut Vec<Entry<N>>,
) -> Result<Program<N>, Memory>
    requires started { program ≡ started (length (relaxation_columns index.now.paths index.now.parts)) }
    requires cuts { All (λ c. IsCut index.now.paths (cut_value N.rational c)) cuts.now }
    requires rows { rows.now ≡ relaxation_rows index.now.paths index.now.parts (length cuts.now) }
    ensures { IfOk result (λ p. linear_program N.rational p ≡ numbered (relaxation index.now.paths index.now.parts (map (cut_value N.rational) cuts.now))) }
{
    let list = program.goal_list(alloc);
    for row in rows {
        index.write_row(cuts, *row, entries)?;
        feed(&mut program, entries, index.right_side(cuts, *row))?;
    }
    let goal = goal_of(list, index)?;
    Ok(program.finish(goal))
}

/// The goal of a relaxation, in a list that is empty: 0 at tolls and shares, and the demand of the commodity at what it pays.
pub(crate) fn goal_of<N: Exact>(mut goal: Vec<N>, index: &RelaxationIndex) -> Result<Vec<N>, Memory>
    requires empty { goal.items ≡ [] }
    ensures { IfOk result (λ v. map N.rational v.items ≡ map (paid_goal index.now.paths) (relaxation_columns index.now.paths index.now.parts)) }
{
    push_often(&mut goal, 0, index.first_paid(0))?;
    for k in 0..index.table().commodities() {
        let demand = index.table().demand(k);
        push_often(&mut goal, demand, index.used(k).len() as u32)?;
    }
    Ok(goal)
}

/// Adds a whole number so many times.
fn push_often<N: Exact>(numbers: &mut Vec<N>, number: u32, count: u32) -> Result<(), Memory>
    requires { number < 2 ^ 31 }
    ensures { OnOk result (map N.rational numbers.new.items
        ≡ map N.rational numbers.old.items ++ replicate count (whole (pos number))) }
{
    for _i in 0..count {
        numbers.push(whole_number(number))?;
    }
    Ok(())
}
