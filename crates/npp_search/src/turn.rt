//! One turn of a search: a node is opened, the lower value may rise, and the node may be split.

ghost use Rattle.std.specs.Prelude.{◌≡◌, ◌<◌, ◌+◌, ◌^◌, IfOk, OnOk, IsTrue, false};
ghost use Rattle.npp_frac.specs.Fits.{limit_of};
ghost use Rattle.npp_frac.specs.Wide.{value_of_wide};
ghost use Rattle.npp_search.specs.Grown.{NoneIsLive, nodes_of};
ghost use Rattle.npp_search.specs.Search.{IsSetting, problem_in, task_in, IsUnderWay, growth_of};

use crate::picker::Picker;
use crate::setting::Setting;
use crate::state::State;
use npp_frac::Exact;
use npp_leaf::Workspace;
use npp_net::Memory;

impl<N: Exact> State<N> {
    /// Opens the node that the picker names, if one waits, and answers whether there was one. The run takes its memory from
    /// the workspace.
    pub(crate) fn turn<P: Picker>(
        &mut self,
        setting: &Setting,
        workspace: &mut Workspace<N>,
        picker: &mut P,
    ) -> Result<bool, Memory>
        requires setting { IsSetting setting.now }
        requires under_way { IsUnderWay N.rational (problem_in (limit_of N.WIDTH) setting.now) (task_in setting.now) (P.best_first picker.old) self.old }
        requires room { self.old.opened < setting.now.budget }
        requires fits { setting.now.budget < 2 ^ 32 }
        ensures picker { P.best_first picker.new ≡ P.best_first picker.old }
        ensures went { IfOk result (λ went. IsTrue went → self.new.opened ≡ self.old.opened + 1) }
        ensures ended { IfOk result (λ went. went ≡ false
            → NoneIsLive (nodes_of (problem_in (limit_of N.WIDTH) setting.now) (task_in setting.now) (growth_of N.rational self.new)) (value_of_wide self.new.lower)) }
        ensures under_way { OnOk result (IsUnderWay N.rational (problem_in (limit_of N.WIDTH) setting.now) (task_in setting.now) (P.best_first picker.old) self.new) }
    {
        let Some(node) = self.waiting.take(picker)? else {
            return Ok(false);
        };
        let before = self.lower;
        let (bound, shares) = self.open_node(setting, workspace, &node)?;
        self.branch(setting, node, bound, shares)?;
        self.drop_dead(before);
        Ok(true)
    }
}
