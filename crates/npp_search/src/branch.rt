//! A node is split, or stays a leaf.

ghost use Rattle.std.specs.Prelude.{◌≡◌, ◌<◌, ◌+◌, ◌^◌, ℕ, length, map, option_map, OnOk, IfSome};
ghost use Rattle.std.specs.List.{AllPairs};
ghost use Rattle.npp_rows.specs.Parts.{IsAllowed, part_at};
ghost use Rattle.npp_tree.specs.Bounds.{bound_value};
ghost use Rattle.npp_tree.specs.Family.{Divides};
ghost use Rattle.npp_tree.specs.Keyed.{IsOpenedLeaf};
ghost use Rattle.npp_search.specs.Rule.{HasSeveral, IsByRule, division_by};
ghost use Rattle.npp_search.specs.Scan.{AreSharesOf};
ghost use Rattle.npp_search.specs.Search.{IsSetting};
ghost use Rattle.npp_search.specs.Steps.{Splits, Branches};

use crate::children::divide;
use crate::division::{Division, by_count, by_shares};
use crate::offer::basic_bound;
use crate::setting::Setting;
use crate::state::State;
use crate::waiting::Waiting;
use npp_frac::Exact;
use npp_net::{Listed, Memory};
use npp_rows::{Allowed, is_full};
use npp_tree::Bound;

/// Where a node is split: by the shares of its point, and without one by the number of paths.
fn division_of<N: Exact>(allowed: &Allowed, shares: Option<Listed<Listed<N>>>) -> Division
    requires several { (k : ℕ) × HasSeveral allowed.now.parts k }
    requires few { length allowed.now.parts < 2 ^ 32 }
    requires rising { (k : ℕ) → k < length allowed.now.parts → AllPairs (λ p q. p < q) (part_at allowed.now.parts k) }
    requires shares { IfSome (option_map (map (map N.rational)) shares) (AreSharesOf allowed.now.parts) }
    ensures rule { IsByRule allowed.now.parts (option_map (map (map N.rational)) shares) (division_by result.commodity result.path) }
    ensures divides { Divides allowed.now.parts (division_by result.commodity result.path) }
{
    match shares {
        Some(shares) => by_shares(allowed.parts.entries(), shares.entries()),
        None => by_count(allowed.parts.entries()),
    }
}

impl<N: Exact> State<N> {
    /// Splits a leaf.
    fn split(
        &mut self,
        setting: &Setting,
        node: Waiting,
        bound: Bound,
        division: Division,
    ) -> Result<(), Memory>
        requires setting { IsSetting setting.now }
        requires allowed { IsAllowed setting.now.table node.allowed.parts }
        requires divides { Divides node.allowed.parts (division_by division.commodity division.path) }
        requires leaf { IsOpenedLeaf self.old.tree node.key }
        requires depth { node.seen.depth + 1 < 2 ^ 32 }
        requires made { self.old.made + 2 < 2 ^ 64 }
        ensures { OnOk result (Splits setting.now.table self.old self.new node.key node.seen.depth node.allowed.parts (bound_value bound)
            (division_by division.commodity division.path)) }
    {
        let Waiting { seen, key, allowed } = node;
        let (first, second) = divide(setting.alloc, allowed, division)?;
        let first_bound = bound.lesser(basic_bound(setting.instance, setting.covers, &first));
        let second_bound = bound.lesser(basic_bound(setting.instance, setting.covers, &second));
        let part = vec![in setting.alloc; division.path]?;
        let (one, other) = self
            .tree
            .split(key, division.commodity, part, first_bound, second_bound)?;
        self.make(one, seen.depth + 1, first, first_bound)?;
        self.make(other, seen.depth + 1, second, second_bound)
    }

    /// Splits an opened leaf whose bound is above the lower value, unless it is a full choice.
    pub(crate) fn branch(
        &mut self,
        setting: &Setting,
        node: Waiting,
        bound: Bound,
        shares: Option<Listed<Listed<N>>>,
    ) -> Result<(), Memory>
        requires setting { IsSetting setting.now }
        requires allowed { IsAllowed setting.now.table node.allowed.parts }
        requires shares { IfSome (option_map (map (map N.rational)) shares) (AreSharesOf node.allowed.parts) }
        requires leaf { IsOpenedLeaf self.old.tree node.key }
        requires depth { node.seen.depth + 1 < 2 ^ 32 }
        requires made { self.old.made + 2 < 2 ^ 64 }
        ensures { OnOk result (Branches setting.now.table self.old self.new node.key node.seen.depth node.allowed.parts (bound_value bound)
            (option_map (map (map N.rational)) shares)) }
    {
        if !Bound::At(self.lower).is_below(bound) || is_full(node.allowed.parts.entries()) {
            return Ok(());
        }
        let division = division_of(&node.allowed, shares);
        self.split(setting, node, bound, division)
    }
}
