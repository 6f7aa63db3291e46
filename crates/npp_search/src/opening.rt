//! A node is opened.

ghost use Rattle.std.specs.Prelude.{◌≡◌, ◌<◌, ◌+◌, ◌^◌, map, option_map, IfOk};
ghost use Rattle.npp_frac.specs.Fits.{limit_of};
ghost use Rattle.npp_rows.specs.Parts.{IsAllowed};
ghost use Rattle.npp_tree.specs.Bounds.{bound_value};
ghost use Rattle.npp_tree.specs.Tree.{bound_after};
ghost use Rattle.npp_tree.specs.Keyed.{IsUnopenedLeaf};
ghost use Rattle.npp_search.specs.Rule.{shares_found};
ghost use Rattle.npp_search.specs.Search.{IsSetting, problem_in};
ghost use Rattle.npp_search.specs.Steps.{OpensNode};

use crate::offer::offer;
use crate::setting::Setting;
use crate::state::State;
use crate::waiting::Waiting;
use npp_frac::Exact;
use npp_leaf::{LeafWork, Workspace, evidence_in};
use npp_net::{Listed, Memory};
use npp_tree::{Bound, Point};

/// A bound with the value of evidence, where it has one.
fn bound_after(before: Bound, value: Option<Bound>) -> Bound
    ensures { bound_value result ≡ bound_after (bound_value before) (option_map bound_value value) }
{
    match value {
        Some(value) => before.lesser(value),
        None => before,
    }
}

/// The tolls and the shares of a point, if there is one.
fn halves<N: Exact>(point: Option<Point<N>>) -> (Option<Listed<N>>, Option<Listed<Listed<N>>>)
    ensures tolls { result.0 ≡ option_map (λ x. x.tolls) point }
    ensures shares { result.1 ≡ option_map (λ x. x.shares) point }
{
    match point {
        Some(Point { tolls, shares }) => (Some(tolls), Some(shares)),
        None => (None, None),
    }
}

impl<N: Exact> State<N> {
    /// Opens a node: finds its evidence, takes what it offers, and settles it. Answers its bound, and the shares of its
    /// point if there is one. The run takes its memory from the workspace.
    pub(crate) fn open_node(
        &mut self,
        setting: &Setting,
        workspace: &mut Workspace<N>,
        node: &Waiting,
    ) -> Result<(Bound, Option<Listed<Listed<N>>>), Memory>
        requires setting { IsSetting setting.now }
        requires allowed { IsAllowed setting.now.table node.now.allowed.parts }
        requires leaf { IsUnopenedLeaf self.old.tree node.now.key }
        requires room { self.old.opened + 1 < 2 ^ 32 }
        ensures opens { IfOk result (λ r. OpensNode N.rational (problem_in (limit_of N.WIDTH) setting.now) self.old self.new node.now (bound_value r.0)) }
        ensures shares { IfOk result (λ r. option_map (map (map N.rational)) r.1 ≡ shares_found (problem_in (limit_of N.WIDTH) setting.now) node.now.allowed.parts) }
    {
        let no_cuts = Vec::new(setting.alloc);
        let LeafWork {
            evidence,
            value,
            point,
            best,
        } = evidence_in(
            setting.alloc,
            workspace,
            &setting.table,
            &node.allowed,
            &no_cuts,
        )?;
        let (tolls, shares) = halves(point);
        let offered = offer(setting, best, tolls)?;
        self.raise(offered);
        let bound = bound_after(Bound::At(node.seen.bound), value);
        self.tree.settle(node.key, evidence, bound);
        self.opened += 1;
        Ok((bound, shares))
    }
}
