//! The items of a text, with fractions of any width.

ghost use Rattle.std.specs.Prelude.{◌<◌, nat_abs, IsTrue, All, IfOk, IfSome};
ghost use Rattle.npp_frac.specs.Fits.{IsWidth, limit_of};
ghost use Rattle.npp_tree.specs.Items.{HasShortLists};

use npp_cert_text::read_line;
use npp_frac::{Exact, Frac128, is_zero};
use npp_rows::Multiplier;
use npp_tree::Item;
use std::alloc::Global;
use std::test::Fail;

/// The items of a certificate.
pub(crate) fn items_of<N: Exact>(alloc: Global, text: &str) -> Result<Vec<Item<N>>, Fail>
    ensures { IfOk result (λ v. All HasShortLists v.items) }
{
    let mut items = Vec::new(alloc);
    for line in text.lines() {
        let item = item_of(alloc, line)?;
        items.push(item)?;
    }
    Ok(items)
}

/// The item of a line.
fn item_of<N: Exact>(alloc: Global, line: &str) -> Result<Item<N>, Fail>
    ensures { IfOk result HasShortLists }
{
    let Some(item) = read_line(alloc, line.as_bytes())? else {
        return Err(Fail::from("no line of a certificate"));
    };
    match narrowed(item) {
        Some(item) => Ok(item),
        None => Err(Fail::from("no fraction of the width")),
    }
}

/// The item with its fraction at a width, where that fits.
fn narrowed<N: Exact>(item: Item<Frac128>) -> Option<Item<N>>
    requires { HasShortLists item }
    ensures { IfSome result HasShortLists }
{
    match item {
        Item::Lower(value) => Some(Item::Lower(value_of(value)?)),
        Item::Upper(value) => Some(Item::Upper(value_of(value)?)),
        Item::Toll { toll, value } => Some(Item::Toll {
            toll,
            value: value_of(value)?,
        }),
        Item::Path {
            commodity,
            cost,
            paid,
            arcs,
        } => Some(Item::Path {
            commodity,
            cost,
            paid: value_of(paid)?,
            arcs,
        }),
        Item::Mult(y) => Some(Item::Mult(Multiplier {
            row: y.row,
            value: value_of(y.value)?,
        })),
        other => bare(other),
    }
}

/// The same item at a width, where it has no fraction.
fn bare<N>(item: Item<Frac128>) -> Option<Item<N>>
    requires { HasShortLists item }
    ensures { IfSome result HasShortLists }
{
    Some(match item {
        Item::Header => Item::Header,
        Item::HeaderTwo => Item::HeaderTwo,
        Item::StatusIs(status) => Item::StatusIs(status),
        Item::Width(bits) => Item::Width(bits),
        Item::Opened(nodes) => Item::Opened(nodes),
        Item::InstanceIs {
            nodes,
            arcs,
            tolls,
            commodities,
        } => Item::InstanceIs {
            nodes,
            arcs,
            tolls,
            commodities,
        },
        Item::Limit { toll, ceiling } => Item::Limit { toll, ceiling },
        Item::Cover { commodity, labels } => Item::Cover { commodity, labels },
        Item::Start => Item::Start,
        Item::Step { parent, arc } => Item::Step { parent, arc },
        Item::Free { arcs } => Item::Free { arcs },
        Item::Cuts(cuts) => Item::Cuts(cuts),
        Item::Conflict { k, p, l, q, lines } => Item::Conflict { k, p, l, q, lines },
        Item::Pair { k, p, l, cuts } => Item::Pair { k, p, l, cuts },
        Item::Round { lines } => Item::Round { lines },
        Item::Tree => Item::Tree,
        Item::Open => Item::Open,
        Item::Basic(mark) => Item::Basic(mark),
        Item::Dual(lines) => Item::Dual(lines),
        Item::Farkas(lines) => Item::Farkas(lines),
        Item::Inverse(lines) => Item::Inverse(lines),
        Item::NoInverse(lines) => Item::NoInverse(lines),
        Item::Leaf => Item::Leaf,
        Item::Split { commodity, part } => Item::Split { commodity, part },
        Item::End => Item::End,
        _ => return None,
    })
}

/// The same number at a width, where its parts fit.
fn value_of<N: Exact>(value: Frac128) -> Option<N> {
    quotient(whole(value.num())?, whole(value.den())?)
}

/// The quotient of two numbers.
fn quotient<N: Exact>(num: N, den: N) -> Option<N> {
    if is_zero(den) {
        None
    } else {
        num.div(den).ok()
    }
}

/// The fraction of a whole number, where it fits the width.
fn whole<N: Exact>(number: i128) -> Option<N> {
    let number = i64::try_from(number).ok()?;
    if fits(number, N::WIDTH) {
        Some(N::of_whole(number))
    } else {
        None
    }
}

/// Whether a whole number fits a width.
fn fits(number: i64, width: u32) -> bool
    requires { IsWidth width }
    ensures { IsTrue result → nat_abs number < limit_of width }
{
    match width {
        32 => number.unsigned_abs() < 1 << 31,
        64 => number.unsigned_abs() < 1 << 63,
        _ => true,
    }
}
