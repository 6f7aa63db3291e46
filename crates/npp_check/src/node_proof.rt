//! What the multipliers of a node prove.

ghost use Rattle.std.specs.Prelude.{◌≡◌, ◌<◌, ◌≤◌, List, length, map, Err, IfOk, All};
ghost use Rattle.npp_frac.specs.Rational.{Rational};
ghost use Rattle.npp_frac.specs.Fits.{limit_of};
ghost use Rattle.npp_lp.specs.Meaning.{dual_result, farkas_result};
ghost use Rattle.npp_rows.specs.declared.names.Multiplier.{Multiplier};
ghost use Rattle.npp_rows.specs.declared.multiplier_fault.MultiplierFault.{MultiplierFault};
ghost use Rattle.npp_rows.specs.Cuts.{IsCut};
ghost use Rattle.npp_rows.specs.Inverse.{inverse};
ghost use Rattle.npp_rows.specs.Meaning.{cut_value, multiplier_value};
ghost use Rattle.npp_rows.specs.Named.{NamedProgram};
ghost use Rattle.npp_rows.specs.Parts.{IsAllowed, first_choice};
ghost use Rattle.npp_rows.specs.Relax.{relaxation, relaxation_columns};
ghost use Rattle.npp_rows.specs.RowOrder.{DoRise};
ghost use Rattle.npp_rows.specs.Rows.{IsChoice};
ghost use Rattle.npp_rows.specs.Taken.{AreTaken};
ghost use Rattle.npp_tree.specs.Bounds.{bound_value};
ghost use Rattle.npp_check.specs.Descents.{IsDescent, first_program};
ghost use Rattle.npp_check.specs.Judges.{Judges};
ghost use Rattle.npp_check.specs.Multipliers.{dual_value, dual_proof, farkas_value, farkas_proof};
ghost use Rattle.npp_check.specs.NodeLines.{proof_by};
ghost use Rattle.npp_check.specs.Rules.{judged_as};
ghost use Rattle.npp_check.specs.Standing.{AreOfRows};

use crate::block::{Answer, NodeBlock};
use crate::descent::Descent;
use crate::measured::Measured;
use crate::openings::is_full;
use crate::refusal::Rule;
use crate::stop::Stop;
use npp_frac::Exact;
use npp_lp::{DualFault, FarkasFault};
use npp_net::Memory;
use npp_rows::{
    Allowed, CutRow, Multiplier, MultiplierFault, NamedSums, PathTable, RelaxationIndex,
    first_choice,
};
use npp_tree::Bound;
use std::alloc::Global;

/// What the multipliers of a block prove of the program of the first node: a bound as a dual answer, or as a Farkas answer
/// that the node has no outcome.
///
/// It takes the time of the entries of their rows, of the columns, and of a look at the tolls of each path; no program is
/// made.
pub fn node_value<N: Exact>(
    alloc: Global,
    measured: &Measured,
    descent: &Descent<N>,
    block: &NodeBlock<N>,
) -> Result<Bound, Stop>
    requires tree { IsDescent N.rational measured.now.net descent.now }
    requires rows { AreOfRows (first_program N.rational measured.now.net descent.now) (map (multiplier_value N.rational) block.now.multipliers.items) }
    ensures { Judges bound_value result (proof_by (limit_of N.WIDTH) (first_program N.rational measured.now.net descent.now)
        block.now.answer (map (multiplier_value N.rational) block.now.multipliers.items)) }
{
    let known = &descent.known;
    let allowed = descent.places.allowed();
    let table = PathTable::new(alloc, measured.instance(), &known.covers)?;
    if is_full(allowed) {
        choice_value(alloc, &table, allowed, block)
    } else {
        family_value(alloc, &table, &known.cuts, allowed, block)
    }
}

/// What the multipliers of a block prove of the inverse program of a full choice.
fn choice_value<N: Exact>(
    alloc: Global,
    table: &PathTable,
    allowed: &Allowed,
    block: &NodeBlock<N>,
) -> Result<Bound, Stop>
    requires allowed { IsAllowed table.now allowed.now.parts }
    requires rows { AreOfRows (inverse table.now (first_choice allowed.now.parts)) (map (multiplier_value N.rational) block.now.multipliers.items) }
    ensures { Judges bound_value result (proof_by (limit_of N.WIDTH) (inverse table.now (first_choice allowed.now.parts))
        block.now.answer (map (multiplier_value N.rational) block.now.multipliers.items)) }
{
    let choice = first_choice(alloc, allowed.parts.entries())?;
    inverse_value(alloc, table, &choice, block)
}

/// What the multipliers of a block prove of the inverse program of a choice.
fn inverse_value<N: Exact>(
    alloc: Global,
    table: &PathTable,
    choice: &[u32],
    block: &NodeBlock<N>,
) -> Result<Bound, Stop>
    requires choice { IsChoice table.now choice.now }
    requires rows { AreOfRows (inverse table.now choice.now) (map (multiplier_value N.rational) block.now.multipliers.items) }
    ensures { Judges bound_value result (proof_by (limit_of N.WIDTH) (inverse table.now choice.now)
        block.now.answer (map (multiplier_value N.rational) block.now.multipliers.items)) }
{
    let sums = sums_of_choice(alloc, table, choice, &block.multipliers)?;
    let goal = table.choice_goal(alloc, choice)?;
    let bound = judge(&sums, &goal, block.answer)?;
    Ok(bound)
}

/// What the multipliers of a block prove of the relaxation over a family, with the cuts.
fn family_value<'a, N: Exact>(
    alloc: Global,
    table: &'a PathTable<'a>,
    cuts: &[CutRow<N>],
    allowed: &'a Allowed,
    block: &NodeBlock<N>,
) -> Result<Bound, Stop>
    requires allowed { IsAllowed table.now allowed.now.parts }
    requires cuts { All (λ c. IsCut table.now (cut_value N.rational c)) cuts.now }
    requires few { length cuts.now ≤ 1000 }
    requires rows { AreOfRows (relaxation table.now allowed.now.parts (map (cut_value N.rational) cuts.now)) (map (multiplier_value N.rational) block.now.multipliers.items) }
    ensures { Judges bound_value result (proof_by (limit_of N.WIDTH) (relaxation table.now allowed.now.parts (map (cut_value N.rational) cuts.now))
        block.now.answer (map (multiplier_value N.rational) block.now.multipliers.items)) }
{
    let index = RelaxationIndex::new(alloc, table, allowed)?;
    let sums = sums_of_relaxation(alloc, &index, cuts, &block.multipliers)?;
    let goal = index.goal(alloc)?;
    let bound = judge(&sums, &goal, block.answer)?;
    Ok(bound)
}

/// The sums of rows of the relaxation, each with its multiplier.
fn sums_of_relaxation<N: Exact>(
    alloc: Global,
    index: &RelaxationIndex,
    cuts: &[CutRow<N>],
    multipliers: &[Multiplier<N>],
) -> Result<NamedSums<N>, Memory>
    requires cuts { All (λ c. IsCut index.now.paths (cut_value N.rational c)) cuts.now }
    requires few { length cuts.now ≤ 1000 }
    requires rows { AreOfRows (relaxation index.now.paths index.now.parts (map (cut_value N.rational) cuts.now)) (map (multiplier_value N.rational) multipliers.now) }
    ensures taken { IfOk result (λ s. AreTaken N.rational (limit_of N.WIDTH) (relaxation index.now.paths index.now.parts (map (cut_value N.rational) cuts.now))
        (map (multiplier_value N.rational) multipliers.now) s) }
    ensures columns { IfOk result (λ s. length s.sums.columns ≡ length (relaxation_columns index.now.paths index.now.parts)) }
{
    let mut sums = NamedSums::new(alloc, index.column_count())?;
    for multiplier in multipliers {
        match sums.take(index, cuts, *multiplier) {
            Ok(()) => {}
            Err(fault) => return Err(only_memory(fault)),
        }
    }
    Ok(sums)
}

/// The sums of rows of the inverse program of a choice, each with its multiplier.
fn sums_of_choice<N: Exact>(
    alloc: Global,
    table: &PathTable,
    choice: &[u32],
    multipliers: &[Multiplier<N>],
) -> Result<NamedSums<N>, Memory>
    requires choice { IsChoice table.now choice.now }
    requires rows { AreOfRows (inverse table.now choice.now) (map (multiplier_value N.rational) multipliers.now) }
    ensures taken { IfOk result (λ s. AreTaken N.rational (limit_of N.WIDTH) (inverse table.now choice.now) (map (multiplier_value N.rational) multipliers.now) s) }
    ensures columns { IfOk result (λ s. length s.sums.columns ≡ length table.now.caps) }
{
    let mut sums = NamedSums::new(alloc, table.tolls())?;
    for multiplier in multipliers {
        match sums.take_for_choice(table, choice, *multiplier) {
            Ok(()) => {}
            Err(fault) => return Err(only_memory(fault)),
        }
    }
    Ok(sums)
}

/// Want of memory, where a multiplier is refused for no other reason.
fn only_memory(fault: MultiplierFault) -> Memory
    requires { fault ≡ MultiplierFault.Memory }
{
    match fault {
        MultiplierFault::Memory => Memory,
        _ => unreachable!(),
    }
}

/// What the sums prove as the answer.
fn judge<N: Exact>(sums: &NamedSums<N>, goal: &[N], answer: Answer) -> Result<Bound, Rule>
    requires { length goal.now ≡ length sums.now.sums.columns }
    ensures { (p : NamedProgram) (ys : List (Multiplier Rational)) → DoRise p.rows → map N.rational goal.now ≡ map p.goal p.columns
        → AreTaken N.rational (limit_of N.WIDTH) p ys sums.now → judged_as bound_value result ≡ proof_by (limit_of N.WIDTH) p answer ys }
{
    match answer {
        Answer::OfDual | Answer::OfInverse => dual_bound(sums, goal),
        Answer::OfFarkas | Answer::OfNoInverse => farkas_bound(sums),
    }
}

/// The bound that the sums prove as a dual answer of the program with this goal.
fn dual_bound<N: Exact>(sums: &NamedSums<N>, goal: &[N]) -> Result<Bound, Rule>
    requires { length goal.now ≡ length sums.now.sums.columns }
    ensures { (p : NamedProgram) (ys : List (Multiplier Rational)) → DoRise p.rows → map N.rational goal.now ≡ map p.goal p.columns
        → AreTaken N.rational (limit_of N.WIDTH) p ys sums.now → judged_as bound_value result ≡ dual_proof (limit_of N.WIDTH) p ys }
{
    match sums.judge_dual(goal) {
        Ok(value) => Ok(Bound::At(value.widen())),
        Err(fault) => Err(rule_of_dual(fault)),
    }
}

/// What is broken where sums are no dual answer.
fn rule_of_dual<N: Exact>(fault: DualFault<N>) -> Rule
    ensures { dual_value (dual_result N.rational (Err fault)) ≡ Err result }
{
    match fault {
        DualFault::Overflow(_) => Rule::Overflow,
        _ => Rule::Evidence,
    }
}

/// That the sums prove as a Farkas answer that there is no outcome.
fn farkas_bound<N: Exact>(sums: &NamedSums<N>) -> Result<Bound, Rule>
    ensures { (p : NamedProgram) (ys : List (Multiplier Rational)) → DoRise p.rows
        → AreTaken N.rational (limit_of N.WIDTH) p ys sums.now → judged_as bound_value result ≡ farkas_proof (limit_of N.WIDTH) p ys }
{
    match sums.judge_farkas() {
        Ok(()) => Ok(Bound::Empty),
        Err(fault) => Err(rule_of_farkas(fault)),
    }
}

/// What is broken where sums are no Farkas answer.
fn rule_of_farkas<N: Exact>(fault: FarkasFault<N>) -> Rule
    ensures { farkas_value (farkas_result N.rational (Err fault)) ≡ Err result }
{
    match fault {
        FarkasFault::Overflow(_) => Rule::Overflow,
        _ => Rule::Evidence,
    }
}
