//! The head of the tree.

ghost use Rattle.std.specs.Prelude.{◌≡◌, map, IfOk};
ghost use Rattle.npp_frac.specs.Fits.{limit_of};
ghost use Rattle.npp_rows.specs.Caps.{path_model};
ghost use Rattle.npp_rows.specs.Meaning.{cut_value};
ghost use Rattle.npp_rows.specs.Parts.{all_paths};
ghost use Rattle.npp_tree.specs.Items.{item_of};
ghost use Rattle.npp_check.specs.Standing.{AreCutsBut};
ghost use Rattle.npp_check.specs.StageValue.{cuts_value, step_value};
ghost use Rattle.npp_check.specs.Steps.{Steps};

use crate::descent::{Descent, Sum};
use crate::known::Known;
use crate::measured::Measured;
use crate::openings::whole_bound;
use crate::places::Places;
use crate::refusal::Rule;
use crate::stage::Stage;
use crate::stop::Stop;
use npp_frac::Exact;
use npp_net::Memory;
use npp_rows::{Allowed, PathTable, basic_of};
use npp_tree::{Bound, Item};
use std::alloc::Global;

/// The head of the tree. Its root allows all useful paths, and earns no more than their basic bound.
pub fn tree_step<N: Exact>(
    alloc: Global,
    measured: &Measured,
    known: Known<N>,
    item: &Item<N>,
) -> Result<Stage<N>, Stop>
    requires { AreCutsBut measured.now.net known.covers.items 0 (map (cut_value N.rational) known.cuts.items) }
    ensures { Steps (limit_of N.WIDTH) measured.now (cuts_value N.rational known 0) (item_of N.rational item.now) (step_value N.rational measured.now.net result) }
{
    let Item::Tree = item else {
        return Err(Stop::Broken(Rule::Order));
    };
    let allowed = all_allowed(alloc, measured, &known)?;
    let basic = whole_bound(basic_of(measured.instance(), &known.covers, &allowed));
    let sum = Sum {
        opened: 0,
        bound: Bound::Empty,
    };
    let places = Places::one(alloc, allowed, basic);
    let descent = Box::new(alloc, Descent { known, sum, places })?;
    Ok(Stage::Nodes(descent))
}

/// All useful paths of each commodity.
fn all_allowed<N: Exact>(
    alloc: Global,
    measured: &Measured,
    known: &Known<N>,
) -> Result<Allowed, Memory>
    requires { AreCutsBut measured.now.net known.now.covers.items 0 (map (cut_value N.rational) known.now.cuts.items) }
    ensures { IfOk result (λ a. a.parts ≡ all_paths (path_model measured.now.net known.now.covers.items)) }
{
    let table = PathTable::new(alloc, measured.instance(), &known.covers)?;
    let allowed = table.all_paths(alloc)?;
    Ok(allowed)
}
