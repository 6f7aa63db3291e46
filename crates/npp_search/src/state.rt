//! A search between turns.

ghost use Rattle.std.specs.Prelude.{◌≡◌, ◌<◌, ◌+◌, ◌^◌, All, option_map, OnOk};
ghost use Rattle.npp_frac.specs.Rational.{◌<ℚ◌};
ghost use Rattle.npp_frac.specs.Wide.{value_of_wide};
ghost use Rattle.npp_leaf.specs.Found.{best_value};
ghost use Rattle.npp_search.specs.Search.{bound_at};
ghost use Rattle.npp_search.specs.Steps.{Raises, Makes, child, DropsOnly};

use crate::picker::OpenNode;
use crate::waiting::{Waiting, WaitingList};
use npp_frac::{Exact, Frac128, is_below};
use npp_net::{Memory, Tolls};
use npp_rows::{Allowed, Response};
use npp_tree::{Bound, GrowTree};

/// A search between turns.
#[derive(Drop)]
pub(crate) struct State<N: Exact> {
    /// What was grown.
    pub(crate) tree: GrowTree<N>,
    /// The nodes that may be opened.
    pub(crate) waiting: WaitingList,
    /// How many nodes were opened.
    pub(crate) opened: u32,
    /// How many nodes were made.
    pub(crate) made: u64,
    /// The greatest value that is earned so far.
    pub(crate) lower: Frac128,
    /// The tolls that earn it with the reply to them, where it is more than was given.
    pub(crate) best: Option<(Tolls<N>, Response<N>)>,
}

impl<N: Exact> State<N> {
    /// Takes what is offered where it earns more.
    pub(crate) fn raise(&mut self, offer: Option<(Tolls<N>, Response<N>)>)
        ensures { Raises N.rational (option_map (best_value N.rational) offer) self.old self.new }
    {
        if let Some((tolls, reply)) = offer {
            let revenue = reply.revenue.widen();
            if is_below(self.lower, revenue) {
                self.lower = revenue;
                self.best = Some((tolls, reply));
            }
        }
    }

    /// Counts a node that was made, and lets it wait if its bound is above the lower value.
    pub(crate) fn make(
        &mut self,
        key: usize,
        depth: u32,
        allowed: Allowed,
        bound: Bound,
    ) -> Result<(), Memory>
        requires { self.old.made + 1 < 2 ^ 64 }
        ensures { OnOk result (Makes self.old self.new (child self.old.made key depth allowed (value_of_wide self.old.lower) bound)) }
    {
        let number = self.made;
        self.made += 1;
        if let Bound::At(bound) = bound {
            if is_below(self.lower, bound) {
                self.waiting.push(Waiting {
                    seen: OpenNode {
                        number,
                        depth,
                        bound,
                    },
                    key,
                    allowed,
                })?;
            }
        }
        Ok(())
    }

    /// Drops the nodes that the lower value cuts off, if it rose from this value, above which all bounds are.
    pub(crate) fn drop_dead(&mut self, before: Frac128)
        requires { All (λ w. value_of_wide before <ℚ bound_at w) self.old.waiting }
        ensures { DropsOnly self.old self.new }
    {
        if !is_below(before, self.lower) {
            return;
        }
        self.waiting.drop_dead(self.lower);
    }
}
