//! Branch and bound from allowed paths.

ghost use Rattle.std.specs.Prelude.{◌≡◌, ◌≤◌, ◌⊎◌, Bool, true, IfOk};
ghost use Rattle.npp_frac.specs.Fits.{limit_of};
ghost use Rattle.npp_frac.specs.Wide.{value_of_wide};
ghost use Rattle.npp_rows.specs.Caps.{path_model};
ghost use Rattle.npp_rows.specs.Limits.{path_total};
ghost use Rattle.npp_rows.specs.Lowering.{AreClosedCovers};
ghost use Rattle.npp_rows.specs.Parts.{IsAllowed};
ghost use Rattle.npp_tree.specs.Bounds.{bound_value};
ghost use Rattle.npp_search.specs.Problem.{problem_of};
ghost use Rattle.npp_search.specs.Grown.{NoneIsLive, IsGrownFrom, IsGrownBestFirst, HasFewNodes, nodes_of};
ghost use Rattle.npp_search.specs.Search.{IsSetting, problem_in, task_in, growth_of, IsUnderWay};
ghost use Rattle.npp_search.specs.Result.{task_of, grown_value};

use crate::children::copy_parts;
use crate::grown::Grown;
use crate::offer::basic_bound;
use crate::picker::Picker;
use crate::setting::Setting;
use crate::state::State;
use crate::waiting::WaitingList;
use npp_cover::Cover;
use npp_frac::{Exact, Frac128};
use npp_leaf::Workspace;
use npp_net::{Instance, Listed, Memory};
use npp_rows::{Allowed, PathTable};
use npp_tree::{Bound, GrowTree};
use std::alloc::Global;

/// A search before its first turn: the root waits, if its bound is above the lower value.
fn start<N: Exact>(setting: &Setting) -> Result<State<N>, Memory>
    requires { IsSetting setting.now }
    ensures opened { IfOk result (λ s. s.opened ≡ 0) }
    ensures under_way { IfOk result (λ s. (first : Bool) → IsUnderWay N.rational (problem_in (limit_of N.WIDTH) setting.now) (task_in setting.now) first s) }
{
    let basic = basic_bound(setting.instance, setting.covers, setting.allowed);
    let bound = setting.bound.lesser(basic);
    let parts = copy_parts(setting.alloc, setting.allowed.parts.entries())?;
    let allowed = Allowed {
        parts: Listed::of(parts),
    };
    let tree = GrowTree::new(setting.alloc, bound)?;
    let root = tree.root();
    let mut state = State {
        tree,
        waiting: WaitingList::new(setting.alloc),
        opened: 0,
        made: 0,
        lower: setting.lower,
        best: None,
    };
    state.make(root, 0, allowed, bound)?;
    Ok(state)
}

/// Turns until the budget is spent or no node waits. All of them share the memory of their runs.
pub(crate) fn grow<N: Exact, P: Picker>(
    setting: &Setting,
    picker: &mut P,
) -> Result<State<N>, Memory>
    requires { IsSetting setting.now }
    ensures picker { P.best_first picker.new ≡ P.best_first picker.old }
    ensures under_way { IfOk result (IsUnderWay N.rational (problem_in (limit_of N.WIDTH) setting.now) (task_in setting.now) (P.best_first picker.old)) }
    ensures ended { IfOk result (λ s. (s.opened ≡ setting.now.budget)
        ⊎ NoneIsLive (nodes_of (problem_in (limit_of N.WIDTH) setting.now) (task_in setting.now) (growth_of N.rational s)) (value_of_wide s.lower)) }
{
    let mut state = start(setting)?;
    let mut workspace = Workspace::new(setting.alloc);
    for _turn in 0..setting.budget {
        if !state.turn(setting, &mut workspace, picker)? {
            return Ok(state);
        }
    }
    Ok(state)
}

/// Branch and bound from a node of the tree of an instance, which allows these paths and whose outcomes earn no more than
/// `bound`: it opens at most `budget` nodes, each of which the picker names, and looks for more than `lower`.
///
/// The covers are those of the instance, one for each commodity in order. Whatever the picker does, the answer is grown:
/// each opened node has the evidence that its paths call for, the lower value is the greatest that was earned, and the budget
/// is spent or no node is left whose bound is above it.
pub fn search_from<N: Exact, P: Picker>(
    alloc: Global,
    instance: &Instance,
    covers: &[Cover],
    allowed: &Allowed,
    bound: Bound,
    lower: Frac128,
    budget: u32,
    picker: &mut P,
) -> Result<Grown<N>, Memory>
    requires covers { AreClosedCovers instance.now covers.now }
    requires few { path_total covers.now ≤ 16777216 }
    requires allowed { IsAllowed (path_model instance.now covers.now) allowed.now.parts }
    ensures grown { IfOk result (λ g. IsGrownFrom (problem_of (limit_of N.WIDTH) instance.now covers.now)
        (task_of allowed.now.parts (bound_value bound) (value_of_wide lower) budget) (grown_value N.rational g)) }
    ensures few_nodes { IfOk result (λ g. HasFewNodes allowed.now.parts (grown_value N.rational g).entries) }

    // Where the picker always takes a node with the greatest bound, each opened node had before its opening a bound of at
    // least that of each node that is left above the lower value.
    ensures best_first { P.best_first picker.old ≡ true → IfOk result (λ g. IsGrownBestFirst (problem_of (limit_of N.WIDTH) instance.now covers.now)
        (task_of allowed.now.parts (bound_value bound) (value_of_wide lower) budget) (grown_value N.rational g)) }
    ensures picker { P.best_first picker.new ≡ P.best_first picker.old }
{
    let setting = Setting {
        alloc,
        instance,
        covers,
        table: PathTable::new(alloc, instance, covers)?,
        allowed,
        bound,
        lower,
        budget,
    };
    let state = grow(&setting, picker)?;
    let State {
        tree,
        opened,
        lower,
        best,
        ..
    } = state;
    Ok(Grown {
        opened,
        tree: tree.freeze()?,
        lower,
        best,
    })
}
