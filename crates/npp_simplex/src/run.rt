//! The pivots of a run.

ghost use Rattle.std.specs.Prelude.{◌≡◌, ℕ, suc, ◌+◌, ◌<◌, ◌≤◌, ◌^◌, Option, Some, IfSome, IfOk};
ghost use Rattle.npp_frac.specs.Fits.{limit_of};
ghost use Rattle.npp_lp.specs.Meaning.{linear_program, IsProgram};
ghost use Rattle.npp_simplex.specs.Ratio.{entering as entering_of, candidates as candidates_of};
ghost use Rattle.npp_simplex.specs.Places.{pivot_row};
ghost use Rattle.npp_simplex.specs.Run.{run_from, first_state, first_stage as first_stage_of, stage_when_leaves};
ghost use Rattle.npp_simplex.specs.Standing.{IsReadyFor, IsRoom};
ghost use Rattle.npp_simplex.specs.Turns.{pivoted_in, goes_on};
ghost use Rattle.npp_simplex.specs.Meaning.{outcome_of};

use crate::answer::Answer;
use crate::ends::{no_column, unbounded};
use crate::place::Place;
use crate::ratio::leaving_of_first;
use crate::room::{Room, numbers_from};
use crate::shape::Shape;
use crate::stage::{EnteringColumn, Stage};
use crate::tableau::Tableau;
use crate::workspace::Workspace;
use npp_frac::{Exact, Memory};
use npp_lp::{Program, first_negative};
use std::alloc::Global;
use std::marker::Model;

/// Where a run stands: its stage, its tableau, and the basic column of each row of the program. Contracts see it as the
/// state of the run.
#[derive(Drop)]
pub struct State<N: Exact> {
    stage: Stage,
    tableau: Tableau<N>,
    basis: Vec<u32>,
    room: Room<N>,
}

impl<N: Exact> Model for State<N> {
    ghost use Rattle.npp_simplex.specs.Run.{State as Stands};
    ghost use Rattle.npp_simplex.specs.Standing.{IsStanding};

    ghost Value = { Stands };

    ghost view = { λ a. record { stage = a.stage; tableau = a.tableau; basis = a.basis.items } };

    ghost invariant = { λ a. IsStanding a.stage a.tableau a.basis.items a.room };
}

/// What comes of a turn of a run: the next state, or the run's end.
#[derive(Drop)]
pub enum Turn<N: Exact> {
    /// A pivot was made.
    GoesOn(State<N>),
    /// The run ends with this answer.
    Ends(Answer<N>),
}

/// The stage in which a run begins.
pub fn first_stage(phase_one: bool) -> Stage
    ensures { result ≡ first_stage_of phase_one }
{
    if phase_one {
        Stage::Entry
    } else {
        Stage::PhaseTwo
    }
}

/// The stage after a pivot in which a basic column leaves.
pub fn stage_after(shape: Shape, stage: Stage, leaving: u32) -> Stage
    ensures { result ≡ stage_when_leaves stage (shape.columns + shape.rows) leaving }
{
    match stage {
        Stage::Entry => Stage::PhaseOne,
        Stage::PhaseOne => {
            if leaving as usize == shape.extra() {
                Stage::PhaseTwo
            } else {
                Stage::PhaseOne
            }
        }
        Stage::PhaseTwo => Stage::PhaseTwo,
    }
}

/// Makes the pivot on a column that enters, and tells the row that leaves, or None where no row may leave. It answers
/// the first place that does not fit.
pub fn pivot_on<N: Exact>(
    tableau: &mut Tableau<N>,
    entering: EnteringColumn,
    room: &mut Room<N>,
) -> Result<Option<u32>, Place>
    requires ready { IsReadyFor entering.stage tableau.old }
    requires column { entering_of entering.stage tableau.old ≡ Some entering.column }
    requires within { entering.column < tableau.old.columns + tableau.old.rows + 1 }
    requires room { IsRoom tableau.old.rows tableau.old.columns room.old }
    ensures row { result ≡ pivot_row (Some (limit_of N.WIDTH)) entering.stage tableau.old entering.column (candidates_of entering.stage tableau.old entering.column) }
    ensures tableau { IfOk result (λ row. tableau.new ≡ pivoted_in tableau.old entering.column row) }
    ensures within { IfOk result (λ row. IfSome row (λ r. r < tableau.old.rows)) }
    ensures room { IsRoom tableau.old.rows tableau.old.columns room.new }
{
    let candidates = room.candidates.as_mut_slice();
    let numbers = room.numbers.as_mut_slice();
    let divided = &mut room.divided;
    let columns = room.columns.as_mut_slice();
    let count = tableau.candidates(entering.stage, entering.column, candidates);
    if count == 0 {
        return Ok(None);
    }
    match leaving_of_first(tableau, entering, candidates, count, numbers) {
        Ok(row) => match tableau.pivot(row as usize, entering.column, divided, columns) {
            Some(place) => Err(place),
            None => Ok(Some(row)),
        },
        Err(place) => Err(place),
    }
}

impl<N: Exact> State<N> {
    /// The state in which the run of a program begins, in the memory of a workspace.
    pub fn first(
        alloc: Global,
        workspace: &mut Workspace<N>,
        program: &Program<N>,
    ) -> Result<State<N>, Memory>
        ensures state { IfOk result (λ state. state ≡ first_state (linear_program N.rational program.now)) }
        ensures form { IsProgram N.rational program.now }
    {
        let shape = Shape {
            rows: program.row_count(),
            columns: program.columns() as usize,
        };
        let phase_one = first_negative(program.right()).is_some();
        let tableau = Tableau::first(alloc, workspace, program, shape, phase_one)?;
        let stage = first_stage(phase_one);
        let basis = numbers_from(workspace.basis_list(alloc), shape.columns, shape.rows)?;
        let room = workspace.last_room(alloc).fit(shape)?;
        Ok(State {
            stage,
            tableau,
            basis,
            room,
        })
    }

    /// One turn of the run: it ends, and its memory goes to the workspace, or one pivot is made.
    pub fn turn(
        self,
        alloc: Global,
        workspace: &mut Workspace<N>,
        made: u32,
    ) -> Result<Turn<N>, Memory>
        requires { made + 1 < 2 ^ 32 }
        ensures { IfOk result (λ turn. (left : ℕ) → run_from (Some (limit_of N.WIDTH)) (suc left) made self ≡ goes_on N.rational (Some (limit_of N.WIDTH)) left made turn) }
    {
        let State {
            stage,
            mut tableau,
            mut basis,
            mut room,
        } = self;
        let Some(column) = tableau.entering(stage) else {
            let answer = no_column(alloc, stage, &tableau, basis.as_slice(), made)?;
            workspace.keep(tableau, basis, room);
            return Ok(Turn::Ends(answer));
        };
        let entering = EnteringColumn {
            stage,
            column: column as usize,
        };
        match pivot_on(&mut tableau, entering, &mut room) {
            Ok(Some(row)) => {
                let next = stage_after(tableau.shape(), stage, basis[row as usize]);
                basis[row as usize] = column;
                tableau.hand_on(stage, next);
                Ok(Turn::GoesOn(State {
                    stage: next,
                    tableau,
                    basis,
                    room,
                }))
            }
            Ok(None) => {
                let answer = unbounded(alloc, &tableau, basis.as_slice(), column, made)?;
                workspace.keep(tableau, basis, room);
                Ok(Turn::Ends(answer))
            }
            Err(place) => {
                workspace.keep(tableau, basis, room);
                Ok(Turn::Ends(Answer::Overflow {
                    pivot: made + 1,
                    place,
                }))
            }
        }
    }

    /// How the run ends where no more pivots are allowed. Its memory goes to the workspace.
    pub fn last_look(
        self,
        alloc: Global,
        workspace: &mut Workspace<N>,
        made: u32,
    ) -> Result<Answer<N>, Memory>
        ensures { IfOk result (λ a. outcome_of N.rational a ≡ run_from (Some (limit_of N.WIDTH)) 0 made self) }
    {
        let State {
            stage,
            tableau,
            basis,
            mut room,
        } = self;
        let Some(column) = tableau.entering(stage) else {
            let ended = no_column(alloc, stage, &tableau, basis.as_slice(), made)?;
            workspace.keep(tableau, basis, room);
            return Ok(ended);
        };
        let list = room.candidates.as_mut_slice();
        if tableau.candidates(stage, column as usize, list) == 0 {
            let rising = unbounded(alloc, &tableau, basis.as_slice(), column, made)?;
            workspace.keep(tableau, basis, room);
            return Ok(rising);
        }
        workspace.keep(tableau, basis, room);
        Ok(Answer::Capped)
    }
}

/// The answer of a run from its first state on, with at most `cap` pivots. Its memory goes to the workspace.
pub fn run<N: Exact>(
    alloc: Global,
    workspace: &mut Workspace<N>,
    first: State<N>,
    cap: u32,
) -> Result<Answer<N>, Memory>
    ensures { IfOk result (λ a. outcome_of N.rational a ≡ run_from (Some (limit_of N.WIDTH)) cap 0 first) }
{
    let mut state = first;
    for made in 0..cap {
        match state.turn(alloc, workspace, made)? {
            Turn::GoesOn(next) => state = next,
            Turn::Ends(answer) => return Ok(answer),
        }
    }
    state.last_look(alloc, workspace, cap)
}
