//! The number of cuts, at whose line the printed tolls and walks are judged.

ghost use Rattle.std.specs.Prelude.{◌≡◌, map};
ghost use Rattle.npp_frac.specs.Fits.{limit_of};
ghost use Rattle.npp_rows.specs.Caps.{path_model};
ghost use Rattle.npp_tree.specs.Items.{item_of};
ghost use Rattle.npp_tree.specs.Outcome.{path_line_value};
ghost use Rattle.npp_check.specs.CutLines.{cuts_line};
ghost use Rattle.npp_check.specs.Standing.{ArePrinted, AreCoversBut};

use crate::known::Printed;
use crate::prices::earns_lower;
use crate::refusal::Rule;
use npp_cover::Cover;
use npp_frac::Exact;
use npp_net::Instance;
use npp_tree::Item;

/// How many cuts follow. No useful path is cheaper than the printed walk of its commodity, and the walks earn the lower
/// value.
pub fn cuts_line<N: Exact>(
    instance: &Instance,
    printed: &Printed<N>,
    covers: &[Cover],
    item: &Item<N>,
) -> Result<u32, Rule>
    requires printed { ArePrinted instance.now (map N.rational printed.now.tolls.items) (map (path_line_value N.rational) printed.now.paths.items) }
    requires covers { AreCoversBut instance.now 0 covers.now }
    ensures { result ≡ cuts_line (limit_of N.WIDTH) instance.now (path_model instance.now covers.now) (map N.rational printed.now.tolls.items)
        (map (path_line_value N.rational) printed.now.paths.items) (N.rational printed.now.head.lower) (item_of N.rational item.now) }
{
    let _nodes = instance.nodes();
    let Item::Cuts(count) = item else {
        return Err(Rule::Order);
    };
    earns_lower(
        instance,
        covers,
        &printed.tolls,
        &printed.paths,
        printed.head.lower,
    )?;
    if *count > 1_000 {
        return Err(Rule::Cut);
    }
    Ok(*count)
}
