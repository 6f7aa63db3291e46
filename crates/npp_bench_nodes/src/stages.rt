//! The work on the root of a search, as far as a stage goes.

ghost use Rattle.std.specs.Prelude.{◌≡◌, ◌≤◌};
ghost use Rattle.npp_rows.specs.Limits.{path_total};
ghost use Rattle.npp_rows.specs.Lowering.{AreClosedCovers};
ghost use Rattle.npp_rows.specs.Parts.{IsAllowed, all_paths};
ghost use Rattle.npp_inverse.specs.Offers.{HasUsefulPaths};

use crate::text::text_of;
use npp_cover::Cover;
use npp_frac::{Exact, print_fraction};
use npp_leaf::{LeafWork, Workspace, evidence_in};
use npp_lp::{Program, check_dual};
use npp_net::{Instance, Listed, Memory};
use npp_rows::{Allowed, CutRow, Derivation, Multiplier, PathTable, RelaxationIndex, RowName};
use npp_simplex::{Answer, solve_in};
use npp_tree::{Bound, Evidence};
use std::alloc::Global;

/// The most pivots of a run.
const CAP: u32 = 100_000;

/// How far the work goes.
#[derive(Clone, Copy)]
pub enum Stage {
    /// The relaxation is made.
    Program,
    /// The simplex is run on it too.
    Run,
    /// The multipliers of the run are checked too.
    Check,
    /// All the work on the node.
    Evidence,
    /// The relaxation is made and written.
    Text,
    /// A row of the first commodity is rounded down.
    Round,
    /// The sum of a row of each commodity is rounded down.
    Rounds,
}

/// What the stage tells of the node that allows all useful paths, the last time of so many.
pub fn told<N: Exact>(
    alloc: Global,
    instance: &Instance,
    covers: &[Cover],
    stage: Stage,
    repeat: u32,
) -> Result<Option<String>, Memory>
    requires covers { AreClosedCovers instance.now covers.now }
    requires few { path_total covers.now ≤ 16777216 }
{
    let table = PathTable::new(alloc, instance, covers)?;
    let allowed = table.all_paths(alloc)?;
    told_of_node::<N>(alloc, &table, &allowed, stage, repeat)
}

/// What the stage tells of the node that allows these paths, the last time of so many. Each time but the first has the memory
/// of the time before, as the nodes of a search have.
fn told_of_node<'a, N: Exact>(
    alloc: Global,
    table: &'a PathTable<'a>,
    allowed: &'a Allowed,
    stage: Stage,
    repeat: u32,
) -> Result<Option<String>, Memory>
    requires useful { HasUsefulPaths table.now }
    requires allowed { IsAllowed table.now allowed.now.parts }
    requires whole { allowed.now.parts ≡ all_paths table.now }
{
    let index = RelaxationIndex::new(alloc, table, allowed)?;
    let mut workspace = Workspace::<N>::new(alloc);
    match stage {
        Stage::Evidence => Ok(found_often(alloc, &mut workspace, table, allowed, repeat)),
        Stage::Round => Ok(rounded_often::<N>(alloc, &index, 1, repeat)),
        Stage::Rounds => Ok(rounded_often::<N>(alloc, &index, table.commodities(), repeat)),
        _ => Ok(often_told(alloc, &mut workspace, &index, stage, repeat)),
    }
}

/// What the rounded sum of a row of each of so many commodities is, the last time of so many.
fn rounded_often<N: Exact>(
    alloc: Global,
    index: &RelaxationIndex,
    count: u32,
    repeat: u32,
) -> Option<String>
    requires whole { index.now.parts ≡ all_paths index.now.paths }
{
    let mut y = Vec::new(alloc);
    for k in 0..count {
        let (row, value) = (RowName::One(k), N::of_whole(1));
        y.push(Multiplier { row, value }).ok()?;
    }
    let round = Derivation::Round { y: Listed::of(y) };
    let mut text = String::new(alloc);
    for _ in 0..repeat {
        text = rounded_text(alloc, index, &round)?;
    }
    Some(text)
}

/// How large a derived row is.
fn rounded_text<N: Exact>(
    alloc: Global,
    index: &RelaxationIndex,
    derivation: &Derivation<N>,
) -> Option<String>
    requires whole { index.now.parts ≡ all_paths index.now.paths }
{
    let earlier = Vec::<CutRow<N>>::new(alloc);
    match index.check_derivation(alloc, &earlier, derivation) {
        Ok(row) => format!(in alloc; "{} terms", row.terms.len()).ok(),
        Err(_) => format!(in alloc; "no derivation").ok(),
    }
}

/// What a stage tells of the relaxation, the last time of so many.
fn often_told<N: Exact>(
    alloc: Global,
    workspace: &mut Workspace<N>,
    index: &RelaxationIndex,
    stage: Stage,
    repeat: u32,
) -> Option<String> {
    let mut text = String::new(alloc);
    for _ in 0..repeat {
        text = program_text(alloc, workspace, index, stage)?;
    }
    Some(text)
}

/// What is found at the node, the last time of so many.
fn found_often<'a, N: Exact>(
    alloc: Global,
    workspace: &mut Workspace<N>,
    table: &'a PathTable<'a>,
    allowed: &'a Allowed,
    repeat: u32,
) -> Option<String>
    requires useful { HasUsefulPaths table.now }
    requires allowed { IsAllowed table.now allowed.now.parts }
{
    let mut text = String::new(alloc);
    for _ in 0..repeat {
        text = found_text(alloc, workspace, table, allowed)?;
    }
    Some(text)
}

/// What is found at the node.
fn found_text<'a, N: Exact>(
    alloc: Global,
    workspace: &mut Workspace<N>,
    table: &'a PathTable<'a>,
    allowed: &'a Allowed,
) -> Option<String>
    requires useful { HasUsefulPaths table.now }
    requires allowed { IsAllowed table.now allowed.now.parts }
{
    let cuts = Vec::<CutRow<N>>::new(alloc);
    let work: LeafWork<N> = evidence_in(alloc, workspace, table, allowed, &cuts).ok()?;
    if let Evidence::Basic(mark) = &work.evidence {
        return format!(in alloc; "{mark:?}").ok();
    }
    match work.value {
        Some(Bound::At(value)) => format!(in alloc;
            "value {}",
            print_fraction(alloc, value).ok()?
        ).ok(),
        _ => format!(in alloc; "empty").ok(),
    }
}

/// What a stage tells of the relaxation.
fn program_text<N: Exact>(
    alloc: Global,
    workspace: &mut Workspace<N>,
    index: &RelaxationIndex,
    stage: Stage,
) -> Option<String> {
    let cuts = Vec::<CutRow<N>>::new(alloc);
    let program = index.program(alloc, &mut workspace.programs, &cuts).ok()?;
    let text = match stage {
        Stage::Text => text_of(alloc, &program),
        Stage::Run => run_text(alloc, workspace, &program),
        Stage::Check => check_text(alloc, workspace, &program),
        _ => size_text(alloc, &program),
    };
    workspace.programs.keep(program);
    text
}

/// How large a program is.
fn size_text<N: Exact>(alloc: Global, program: &Program<N>) -> Option<String> {
    let mut entries = 0usize;
    for row in 0..program.row_count() {
        entries = entries.saturating_add(program.row(row).len());
    }
    let (rows, columns) = (program.row_count(), program.columns());
    format!(in alloc; "{rows} rows, {columns} columns, {entries} entries").ok()
}

/// How the run on a program ends.
fn run_text<N: Exact>(
    alloc: Global,
    workspace: &mut Workspace<N>,
    program: &Program<N>,
) -> Option<String> {
    let answer = solve_in(alloc, &mut workspace.runs, program, CAP).ok()?;
    answer_text(alloc, &answer)
}

/// An answer as text.
fn answer_text<N: Exact>(alloc: Global, answer: &Answer<N>) -> Option<String> {
    match answer {
        Answer::Optimal { pivots, value, .. } => {
            let value = print_fraction(alloc, *value).ok()?;
            format!(in alloc; "{pivots} pivots, value {value}").ok()
        }
        Answer::Infeasible { pivots, .. } => format!(in alloc; "{pivots} pivots, no point").ok(),
        Answer::Unbounded { pivots, .. } => format!(in alloc; "{pivots} pivots, no bound").ok(),
        Answer::Overflow { pivot, .. } => format!(in alloc; "overflow in pivot {pivot}").ok(),
        Answer::Capped => format!(in alloc; "too many pivots").ok(),
    }
}

/// What the check of the multipliers of a run gives.
fn check_text<N: Exact>(
    alloc: Global,
    workspace: &mut Workspace<N>,
    program: &Program<N>,
) -> Option<String> {
    let answer = solve_in(alloc, &mut workspace.runs, program, CAP).ok()?;
    let Answer::Optimal { y, .. } = answer else {
        return format!(in alloc; "no optimum").ok();
    };
    if y.len() != program.row_count() {
        return format!(in alloc; "not a multiplier for each row").ok();
    }
    match check_dual(program, &y) {
        Ok(value) => format!(in alloc; "value {}", print_fraction(alloc, value).ok()?).ok(),
        Err(_) => format!(in alloc; "no dual answer").ok(),
    }
}
