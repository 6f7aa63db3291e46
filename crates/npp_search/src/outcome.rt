//! Branch and bound over all useful paths of an instance.

ghost use Rattle.std.specs.Prelude.{◌≡◌, ◌≢◌, ◌≤◌, true, [], map, option_map, IsTrue, IfOk};
ghost use Rattle.npp_frac.specs.Rational.{◌≤ℚ◌};
ghost use Rattle.npp_frac.specs.Fits.{limit_of};
ghost use Rattle.npp_frac.specs.Wide.{value_of_wide};
ghost use Rattle.npp_net.specs.Outcome.{IsUpperBound};
ghost use Rattle.npp_labels.specs.Covers.{AreUsefulCovers};
ghost use Rattle.npp_rows.specs.Caps.{path_model};
ghost use Rattle.npp_rows.specs.Limits.{path_total};
ghost use Rattle.npp_rows.specs.Parts.{all_paths};
ghost use Rattle.npp_tree.specs.Bounds.{Empty, At, IsWithin};
ghost use Rattle.npp_tree.specs.Keyed.{without_keys};
ghost use Rattle.npp_tree.specs.Tree.{preorder, tree_bound, leaves_bound};
ghost use Rattle.npp_tree.specs.Outcome.{entry_value, outcome_value};
ghost use Rattle.npp_leaf.specs.Found.{best_value};
ghost use Rattle.npp_start.specs.Allowed.{AreAllowed};
ghost use Rattle.npp_start.specs.Walks.{IsReplyTo};
ghost use Rattle.npp_search.specs.Problem.{problem_of};
ghost use Rattle.npp_search.specs.Grown.{Earns, HasFewNodes};
ghost use Rattle.npp_search.specs.Search.{problem_in};
ghost use Rattle.npp_search.specs.Ending.{IsStatusBy, found_or};
ghost use Rattle.npp_search.specs.Outcome.{IsReport, IsGrownOutcome, IsOutcomeBestFirst, IsBetween, OverflowIsLoud, MustBeOptimal};

use crate::from::grow;
use crate::offer::basic_bound;
use crate::picker::Picker;
use crate::setting::Setting;
use crate::state::State;
use npp_cover::Cover;
use npp_frac::{Exact, Frac128, is_below};
use npp_net::{Instance, Listed, Memory, Tolls};
use npp_rows::{PathTable, Response};
use npp_start::{Start, find_start_for, walks_of_reply};
use npp_tree::{Bound, CertTree, Outcome, Status, bound_of};
use std::alloc::Global;

/// How a search ended, by its two values and whether a node waits.
fn status_of(lower: Frac128, upper: Frac128, waits: bool) -> Status
    requires { value_of_wide lower ≤ℚ value_of_wide upper }
    ensures { IsStatusBy (value_of_wide lower) (value_of_wide upper) (IsTrue waits) result }
{
    if !is_below(lower, upper) {
        return Status::Optimal;
    }
    if waits {
        Status::Budget
    } else {
        Status::Overflow
    }
}

/// The tolls that earn the lower value, with the reply to them: what was found better, and else what the search began with.
fn earner<N: Exact>(
    start: Start<N>,
    best: Option<(Tolls<N>, Response<N>)>,
) -> (Tolls<N>, Response<N>)
    ensures { best_value N.rational result ≡ found_or (best_value N.rational (start.tolls, start.response)) (option_map (best_value N.rational) best) }
{
    match best {
        Some(found) => found,
        None => (start.tolls, start.response),
    }
}

/// The bound of a tree as a number.
fn upper_of<N: Exact>(tree: &CertTree<N>) -> Frac128
    requires { leaves_bound (map (entry_value N.rational) tree.now.nodes) ≢ Empty }
    ensures { leaves_bound (map (entry_value N.rational) tree.now.nodes) ≡ At (value_of_wide result) }
{
    match bound_of(tree) {
        Bound::At(upper) => upper,
        Bound::Empty => unreachable!(),
    }
}

/// The outcome of a search that ended so.
fn outcome_of<N: Exact>(
    setting: &Setting,
    start: Start<N>,
    state: State<N>,
) -> Result<Outcome<N>, Memory>
    requires covers { AreUsefulCovers setting.now.instance.now.arcs setting.now.instance.now.commodities setting.now.covers.now }
    requires earns { Earns (problem_in (limit_of N.WIDTH) setting.now) (value_of_wide state.lower)
        (found_or (best_value N.rational (start.tolls, start.response)) (option_map (best_value N.rational) state.best)) }
    requires table { setting.now.table ≡ path_model setting.now.instance.now setting.now.covers.now }
    requires upper { IsWithin (value_of_wide state.lower) (tree_bound (without_keys state.tree)) }
    ensures entries { IfOk result (λ o. (outcome_value N.rational o).entries ≡ preorder (without_keys state.tree)) }
    ensures upper { IfOk result (λ o. tree_bound (without_keys state.tree) ≡ At (outcome_value N.rational o).upper) }
    ensures lower { IfOk result (λ o. (outcome_value N.rational o).lower ≡ value_of_wide state.lower) }
    ensures opened { IfOk result (λ o. (outcome_value N.rational o).opened ≡ state.opened) }
    ensures cuts { IfOk result (λ o. (outcome_value N.rational o).cuts ≡ []) }
    ensures report { IfOk result (λ o. IsReport (problem_in (limit_of N.WIDTH) setting.now) (outcome_value N.rational o)) }
    ensures reply { IfOk result (λ o. AreAllowed setting.now.instance.now (outcome_value N.rational o).tolls
        → IsReplyTo setting.now.instance.now (outcome_value N.rational o).tolls (outcome_value N.rational o).paths (outcome_value N.rational o).lower) }
    ensures status { IfOk result (λ o. IsStatusBy (outcome_value N.rational o).lower (outcome_value N.rational o).upper (state.waiting ≢ []) o.status) }
{
    let State {
        tree,
        waiting,
        opened,
        lower,
        best,
        ..
    } = state;
    let (tolls, response) = earner(start, best);
    let lines = walks_of_reply(setting.alloc, setting.instance, setting.covers, &response)?;
    let tree = tree.freeze()?;
    let upper = upper_of(&tree);
    Ok(Outcome {
        status: status_of(lower, upper, !waiting.is_empty()),
        lower,
        upper,
        opened,
        tolls,
        paths: Listed::of(lines),
        cuts: Listed::of(Vec::new(setting.alloc)),
        tree,
    })
}

/// Branch and bound over all useful paths of an instance: it opens at most `budget` nodes, each of which the picker names.
///
/// The covers are the useful ones of the instance, one for each commodity in order. Cuts are not made yet, so `cuts`, how
/// many rounds of them a node may have, is 0.
pub fn search<'x, N: Exact, P: Picker>(
    alloc: Global,
    instance: &'x Instance,
    covers: &'x [Cover],
    budget: u32,
    cuts: u32,
    picker: &mut P,
) -> Result<Outcome<N>, Memory>
    requires covers { AreUsefulCovers instance.now.arcs instance.now.commodities covers.now }
    requires few { path_total covers.now ≤ 16777216 }
    requires no_cuts { cuts ≡ 0 }
    ensures grown { IfOk result (λ o. IsGrownOutcome (problem_of (limit_of N.WIDTH) instance.now covers.now) budget (outcome_value N.rational o)) }

    // Both values hold over all walks and all tolls.
    ensures lower { IfOk result (λ o. IsReplyTo instance.now (outcome_value N.rational o).tolls (outcome_value N.rational o).paths (outcome_value N.rational o).lower) }
    ensures upper { IfOk result (λ o. IsUpperBound instance.now (value_of_wide o.upper).num (value_of_wide o.upper).den) }
    ensures between { IfOk result (λ o. IsBetween (problem_of (limit_of N.WIDTH) instance.now covers.now) (outcome_value N.rational o)) }
    ensures optimal { IfOk result (λ o. MustBeOptimal (problem_of (limit_of N.WIDTH) instance.now covers.now) budget (outcome_value N.rational o)) }
    ensures loud { IfOk result (λ o. OverflowIsLoud (problem_of (limit_of N.WIDTH) instance.now covers.now) (outcome_value N.rational o)) }
    ensures few_nodes { IfOk result (λ o. HasFewNodes (all_paths (path_model instance.now covers.now)) (outcome_value N.rational o).entries) }
    ensures best_first { P.best_first picker.old ≡ true → IfOk result (λ o. IsOutcomeBestFirst (problem_of (limit_of N.WIDTH) instance.now covers.now) (outcome_value N.rational o)) }
    ensures picker { P.best_first picker.new ≡ P.best_first picker.old }
{
    let table = PathTable::new(alloc, instance, covers)?;
    let Start::<N> { tolls, response } = find_start_for(alloc, &table)?;
    let lower = response.revenue.widen();
    let allowed = table.all_paths(alloc)?;
    let setting = Setting {
        alloc,
        instance,
        covers,
        table,
        allowed: &allowed,
        bound: basic_bound(instance, covers, &allowed),
        lower,
        budget,
    };
    let state = grow(&setting, picker)?;
    outcome_of(&setting, Start { tolls, response }, state)
}
