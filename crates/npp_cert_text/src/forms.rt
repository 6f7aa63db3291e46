//! What follows the first word of a line.

ghost use Rattle.std.specs.Prelude.{IfOk};
ghost use Rattle.npp_frac.specs.Wide.{value_of_wide};
ghost use Rattle.npp_tree.specs.Items.{item_of};
ghost use Rattle.npp_tree.specs.declared.item.Item.TheVariants as item;
ghost use Rattle.npp_cert_text.specs.Said.{Reads};
ghost use Rattle.npp_cert_text.specs.Reading as reading;

use crate::fields::Fields;
use crate::words::{is_word, mark, row, status};
use npp_frac::Frac128;
use npp_net::{ArcId, Listed, Memory};
use npp_rows::Multiplier;
use npp_tree::Item;
use std::alloc::Global;

/// Behind `npp-certificate`.
#[tactic(auto, unfolding(crate::specs::Taking::and_then))]
pub(crate) fn header(fields: &mut Fields) -> Option<Item<Frac128>>
    ensures { Reads (item_of value_of_wide) reading.header_line fields.old result fields.new }
{
    let word = fields.field()?;
    if is_word(word, b"1") {
        Some(Item::Header)
    } else if is_word(word, b"2") {
        Some(Item::HeaderTwo)
    } else {
        None
    }
}

/// Behind `status`.
#[tactic(auto, unfolding(crate::specs::Taking::and_then))]
pub(crate) fn status_line(fields: &mut Fields) -> Option<Item<Frac128>>
    ensures { Reads (item_of value_of_wide) reading.status_line fields.old result fields.new }
{
    Some(Item::StatusIs(status(fields)?))
}

/// Behind `lower`.
#[tactic(auto, unfolding(crate::specs::Taking::and_then))]
pub(crate) fn lower(fields: &mut Fields) -> Option<Item<Frac128>>
    ensures { Reads (item_of value_of_wide) (reading.valued item.Lower) fields.old result fields.new }
{
    Some(Item::Lower(fields.fraction()?))
}

/// Behind `upper`.
#[tactic(auto, unfolding(crate::specs::Taking::and_then))]
pub(crate) fn upper(fields: &mut Fields) -> Option<Item<Frac128>>
    ensures { Reads (item_of value_of_wide) (reading.valued item.Upper) fields.old result fields.new }
{
    Some(Item::Upper(fields.fraction()?))
}

/// Behind `opened`.
#[tactic(auto, unfolding(crate::specs::Taking::and_then))]
pub(crate) fn opened(fields: &mut Fields) -> Option<Item<Frac128>>
    ensures { Reads (item_of value_of_wide) (reading.counted item.Opened) fields.old result fields.new }
{
    Some(Item::Opened(fields.number()?))
}

/// Behind `cuts`.
#[tactic(auto, unfolding(crate::specs::Taking::and_then))]
pub(crate) fn cuts(fields: &mut Fields) -> Option<Item<Frac128>>
    ensures { Reads (item_of value_of_wide) (reading.counted item.Cuts) fields.old result fields.new }
{
    Some(Item::Cuts(fields.number()?))
}

/// Behind `dual`.
#[tactic(auto, unfolding(crate::specs::Taking::and_then))]
pub(crate) fn dual(fields: &mut Fields) -> Option<Item<Frac128>>
    ensures { Reads (item_of value_of_wide) (reading.counted item.Dual) fields.old result fields.new }
{
    Some(Item::Dual(fields.number()?))
}

/// Behind `farkas`.
#[tactic(auto, unfolding(crate::specs::Taking::and_then))]
pub(crate) fn farkas(fields: &mut Fields) -> Option<Item<Frac128>>
    ensures { Reads (item_of value_of_wide) (reading.counted item.Farkas) fields.old result fields.new }
{
    Some(Item::Farkas(fields.number()?))
}

/// Behind `inverse`.
#[tactic(auto, unfolding(crate::specs::Taking::and_then))]
pub(crate) fn inverse(fields: &mut Fields) -> Option<Item<Frac128>>
    ensures { Reads (item_of value_of_wide) (reading.counted item.Inverse) fields.old result fields.new }
{
    Some(Item::Inverse(fields.number()?))
}

/// Behind `none`.
#[tactic(auto, unfolding(crate::specs::Taking::and_then))]
pub(crate) fn no_inverse(fields: &mut Fields) -> Option<Item<Frac128>>
    ensures { Reads (item_of value_of_wide) (reading.counted item.NoInverse) fields.old result fields.new }
{
    Some(Item::NoInverse(fields.number()?))
}

/// Behind `round`.
#[tactic(auto, unfolding(crate::specs::Taking::and_then))]
pub(crate) fn round(fields: &mut Fields) -> Option<Item<Frac128>>
    ensures { Reads (item_of value_of_wide) (reading.counted item.Round) fields.old result fields.new }
{
    let lines = fields.number()?;
    Some(Item::Round { lines })
}

/// Behind `instance`.
#[tactic(auto, unfolding(crate::specs::Taking::and_then))]
pub(crate) fn instance(fields: &mut Fields) -> Option<Item<Frac128>>
    ensures { Reads (item_of value_of_wide) reading.instance_line fields.old result fields.new }
{
    let nodes = fields.number()?;
    let arcs = fields.number()?;
    let tolls = fields.number()?;
    let commodities = fields.number()?;
    Some(Item::InstanceIs {
        nodes,
        arcs,
        tolls,
        commodities,
    })
}

/// Behind `width`.
#[tactic(auto, unfolding(crate::specs::Taking::and_then))]
pub(crate) fn width(fields: &mut Fields) -> Option<Item<Frac128>>
    ensures { Reads (item_of value_of_wide) reading.width_line fields.old result fields.new }
{
    Some(Item::Width(fields.width()?))
}

/// Behind `limit`.
#[tactic(auto, unfolding(crate::specs::Taking::and_then))]
pub(crate) fn limit(fields: &mut Fields) -> Option<Item<Frac128>>
    ensures { Reads (item_of value_of_wide) reading.limit_line fields.old result fields.new }
{
    let toll = fields.number()?;
    let ceiling = fields.ceiling()?;
    Some(Item::Limit { toll, ceiling })
}

/// Behind `split`.
#[tactic(auto, unfolding(crate::specs::Taking::and_then))]
pub(crate) fn split(alloc: Global, fields: &mut Fields) -> Result<Option<Item<Frac128>>, Memory>
    ensures { IfOk result (λ found. Reads (item_of value_of_wide) reading.split_line fields.old found fields.new) }
{
    let Some(commodity) = fields.number() else {
        return Ok(None);
    };
    let Some(part) = fields.some_numbers(alloc, 1)? else {
        return Ok(None);
    };
    Ok(Some(Item::Split {
        commodity,
        part: Listed::of(part),
    }))
}

/// Behind `path`.
#[tactic(auto, unfolding(crate::specs::Taking::and_then))]
pub(crate) fn path(alloc: Global, fields: &mut Fields) -> Result<Option<Item<Frac128>>, Memory>
    ensures { IfOk result (λ found. Reads (item_of value_of_wide) reading.path_line fields.old found fields.new) }
{
    let Some(commodity) = fields.number() else {
        return Ok(None);
    };
    let Some(cost) = fields.wide() else {
        return Ok(None);
    };
    let Some(paid) = fields.fraction() else {
        return Ok(None);
    };
    let Some(arcs) = fields.arcs(alloc)? else {
        return Ok(None);
    };
    Ok(Some(Item::Path {
        commodity,
        cost,
        paid,
        arcs: Listed::of(arcs),
    }))
}

/// Behind `free`.
#[tactic(auto, unfolding(crate::specs::Taking::and_then))]
pub(crate) fn free(alloc: Global, fields: &mut Fields) -> Result<Option<Item<Frac128>>, Memory>
    ensures { IfOk result (λ found. Reads (item_of value_of_wide) reading.free_line fields.old found fields.new) }
{
    let Some(arcs) = fields.arcs(alloc)? else {
        return Ok(None);
    };
    Ok(Some(Item::Free {
        arcs: Listed::of(arcs),
    }))
}

/// Behind `pair`.
#[tactic(auto, unfolding(crate::specs::Taking::and_then))]
pub(crate) fn pair(alloc: Global, fields: &mut Fields) -> Result<Option<Item<Frac128>>, Memory>
    ensures { IfOk result (λ found. Reads (item_of value_of_wide) reading.pair_line fields.old found fields.new) }
{
    let Some(k) = fields.number() else {
        return Ok(None);
    };
    let Some(p) = fields.number() else {
        return Ok(None);
    };
    let Some(l) = fields.number() else {
        return Ok(None);
    };
    let Some(cuts) = fields.some_numbers(alloc, 2)? else {
        return Ok(None);
    };
    Ok(Some(Item::Pair {
        k,
        p,
        l,
        cuts: Listed::of(cuts),
    }))
}

/// Behind `toll`.
#[tactic(auto, unfolding(crate::specs::Taking::and_then))]
pub(crate) fn toll(fields: &mut Fields) -> Option<Item<Frac128>>
    ensures { Reads (item_of value_of_wide) reading.toll_line fields.old result fields.new }
{
    let toll = fields.number()?;
    let value = fields.fraction()?;
    Some(Item::Toll { toll, value })
}

/// Behind `cover`.
#[tactic(auto, unfolding(crate::specs::Taking::and_then))]
pub(crate) fn cover(fields: &mut Fields) -> Option<Item<Frac128>>
    ensures { Reads (item_of value_of_wide) reading.cover_line fields.old result fields.new }
{
    let commodity = fields.number()?;
    let labels = fields.number()?;
    Some(Item::Cover { commodity, labels })
}

/// Behind `step`.
#[tactic(auto, unfolding(crate::specs::Taking::and_then))]
pub(crate) fn step(fields: &mut Fields) -> Option<Item<Frac128>>
    ensures { Reads (item_of value_of_wide) reading.step_line fields.old result fields.new }
{
    let parent = fields.number()?;
    let arc = ArcId(fields.number()?);
    Some(Item::Step { parent, arc })
}

/// Behind `conflict`.
#[tactic(auto, unfolding(crate::specs::Taking::and_then))]
pub(crate) fn conflict(fields: &mut Fields) -> Option<Item<Frac128>>
    ensures { Reads (item_of value_of_wide) reading.conflict_line fields.old result fields.new }
{
    let k = fields.number()?;
    let p = fields.number()?;
    let l = fields.number()?;
    let q = fields.number()?;
    let lines = fields.number()?;
    Some(Item::Conflict { k, p, l, q, lines })
}

/// Behind `y`.
#[tactic(auto, unfolding(crate::specs::Taking::and_then))]
pub(crate) fn multiplier(fields: &mut Fields) -> Option<Item<Frac128>>
    ensures { Reads (item_of value_of_wide) reading.multiplier_line fields.old result fields.new }
{
    let row = row(fields)?;
    let value = fields.fraction()?;
    Some(Item::Mult(Multiplier { row, value }))
}

/// Behind `basic`.
#[tactic(auto, unfolding(crate::specs::Taking::and_then))]
pub(crate) fn basic(fields: &mut Fields) -> Option<Item<Frac128>>
    ensures { Reads (item_of value_of_wide) reading.basic_line fields.old result fields.new }
{
    Some(Item::Basic(mark(fields)?))
}
