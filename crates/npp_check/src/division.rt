//! How the paths that a node allows are divided.

ghost use Rattle.std.specs.Prelude.{◌≡◌, ◌-◌, ◌<◌, ◌≤◌, true, false, nat_lt, length, slice_index, All, IsTrue, IfOk, MatchOption};
ghost use Rattle.std.specs.List.{AllPairs, list_all};
ghost use Rattle.npp_rows.specs.Parts.{part_at};
ghost use Rattle.npp_rows.specs.RowOrder.{are_rising};
ghost use Rattle.npp_tree.specs.Family.{divides, is_among, rest_of};

use npp_net::Memory;
use npp_rows::Allowed;
use std::alloc::Global;

/// Whether a number is in a list that rises strictly. A place where it may be is tried before the list is searched.
fn has(list: &[u32], place: usize, number: u32) -> bool
    requires { AllPairs (λ p q. p < q) list.now }
    ensures { result ≡ is_among list.now number }
{
    if is_at(list, place, number) {
        return true;
    }
    if is_between(list, place, number) {
        return false;
    }
    list.binary_search(&number).is_ok()
}

/// Whether a number stands at a place.
#[tactic(auto, using(crate::proofs::DivisionLemmas::at_place))]
fn is_at(list: &[u32], place: usize, number: u32) -> bool
    ensures { IsTrue result → is_among list.now number ≡ true }
{
    place < list.len() && list[place] == number
}

/// Whether a number falls between what stands before a place and what stands at it, in a list that rises strictly.
fn is_between(list: &[u32], place: usize, number: u32) -> bool
    requires { AllPairs (λ p q. p < q) list.now }
    ensures { IsTrue result → is_among list.now number ≡ false }
{
    if list.len() < place {
        return false;
    }
    if !is_behind(list, place, number) {
        return false;
    }
    is_before(list, place, number)
}

/// Whether a number is above what stands before a place, if anything does.
fn is_behind(list: &[u32], place: usize, number: u32) -> bool
    requires { place ≤ length list.now }
    ensures { IsTrue result → 0 < place → slice_index list.now (place - 1) < number }
{
    place == 0 || list[place - 1] < number
}

/// Whether a number is below what stands at a place, if anything does.
fn is_before(list: &[u32], place: usize, number: u32) -> bool
    ensures { IsTrue result → place < length list.now → number < slice_index list.now place }
{
    place >= list.len() || number < list[place]
}

/// Whether each number is below the next.
fn is_rising(list: &[u32]) -> bool
    ensures { result ≡ are_rising nat_lt list.now }
{
    for place in 1..list.len() {
        if list[place - 1] >= list[place] {
            return false;
        }
    }
    true
}

/// Whether each number of a part is in the whole.
fn is_within(part: &[u32], whole: &[u32]) -> bool
    requires { AllPairs (λ p q. p < q) whole.now }
    ensures { result ≡ list_all (is_among whole.now) part.now }
{
    for (place, path) in part.iter().enumerate() {
        if !has(whole, place, *path) {
            return false;
        }
    }
    true
}

/// The numbers of the whole that are not in a part.
fn rest_of(alloc: Global, part: &[u32], whole: &[u32]) -> Result<Vec<u32>, Memory>
    requires { AllPairs (λ p q. p < q) part.now }
    ensures { IfOk result (λ v. v.items ≡ rest_of part.now whole.now) }
{
    let mut rest = Vec::new(alloc);
    for (place, path) in whole.iter().enumerate() {
        if !has(part, place.saturating_sub(rest.len()), *path) {
            rest.push(*path)?;
        }
    }
    Ok(rest)
}

/// What is left of the allowed paths of a commodity without this part, where a node may be split so: the part rises, is
/// within the allowed paths, and neither the part nor the rest is empty.
pub fn divide(
    alloc: Global,
    allowed: &Allowed,
    commodity: u32,
    part: &[u32],
) -> Result<Option<Vec<u32>>, Memory>
    requires { All (AllPairs (λ p q. p < q)) allowed.now.parts }
    ensures { IfOk result (λ o. MatchOption o
        (divides allowed.now.parts (record { commodity = commodity; part = part.now }) ≡ false)
        (λ rest. (divides allowed.now.parts (record { commodity = commodity; part = part.now }) ≡ true)
        × (rest.items ≡ rest_of part.now (part_at allowed.now.parts commodity)))) }
{
    let parts = allowed.parts.entries();
    if commodity as usize >= parts.len() {
        return Ok(None);
    }
    let whole = parts[commodity as usize].entries();
    if !is_rising(part) {
        return Ok(None);
    }
    if !is_within(part, whole) {
        return Ok(None);
    }
    let rest = rest_of(alloc, part, whole)?;
    if part.is_empty() || rest.is_empty() {
        return Ok(None);
    }
    Ok(Some(rest))
}
