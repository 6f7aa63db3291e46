//! The entries of a row, block by block: whole numbers in a row of columns, those that are 0 left out.

ghost use Rattle.std.specs.Prelude.{◌≡◌, ◌<◌, ◌≤◌, ◌^◌, ◌+◌, ◌-◌, ◌++◌, ◌==◌, ℕ, pos, negsuc, nat_abs, length, map, All, OnOk, if◌then◌else◌};
ghost use Rattle.std.specs.List.{range_with_len};
ghost use Rattle.std.specs.Int.{bit_at};
ghost use Rattle.npp_frac.specs.Rational.{whole, negative, zero_ℚ};
ghost use Rattle.npp_lp.specs.Meaning.{terms_of};
ghost use Rattle.npp_cover.specs.PathValue.{path_value};
ghost use Rattle.npp_cover.specs.Replaces.{path_at};
ghost use Rattle.npp_lp.specs.Building.{term_at};
ghost use Rattle.npp_rows.specs.Named.{one_if, numbers_from};

use npp_cover::UsefulPath;
use npp_frac::Exact;
use npp_lp::Entry;
use npp_net::{Memory, TollId, TollSet};

/// The entry of a whole number in a column, where it is not 0.
pub(crate) fn push_number<N: Exact>(
    entries: &mut Vec<Entry<N>>,
    column: u32,
    number: i64,
) -> Result<(), Memory>
    requires { nat_abs number < 2 ^ 31 }
    ensures { OnOk result (terms_of N.rational entries.new.items ≡ terms_of N.rational entries.old.items ++ term_at column (whole number)) }
{
    if number != 0 {
        entries.push(Entry {
            column,
            value: N::of_whole(number),
        })?;
    }
    Ok(())
}

/// The same number in each column of a block.
pub(crate) fn push_same<N: Exact>(
    entries: &mut Vec<Entry<N>>,
    base: u32,
    block: &[u32],
    number: i64,
) -> Result<(), Memory>
    requires small { nat_abs number < 2 ^ 31 }
    requires room { base + length block.now < 2 ^ 32 }
    ensures { OnOk result (terms_of N.rational entries.new.items
        ≡ terms_of N.rational entries.old.items ++ numbers_from base (λ x. whole number) block.now) }
{
    for (i, _) in block.iter().enumerate() {
        push_number(entries, base + i as u32, number)?;
    }
    Ok(())
}

/// The costs of the paths of a part.
pub(crate) fn push_costs<N: Exact>(
    entries: &mut Vec<Entry<N>>,
    base: u32,
    paths: &[UsefulPath],
    part: &[u32],
) -> Result<(), Memory>
    requires part { All (λ p. p < length paths.now) part.now }
    requires small { (p : ℕ) → (path_at (map path_value paths.now) p).cost < 2 ^ 31 }
    requires room { base + length part.now < 2 ^ 32 }
    ensures { OnOk result (terms_of N.rational entries.new.items
        ≡ terms_of N.rational entries.old.items ++ numbers_from base (λ p. whole (pos (path_at (map path_value paths.now) p).cost)) part.now) }
{
    for (i, path) in part.iter().enumerate() {
        push_number(
            entries,
            base + i as u32,
            i64::from(paths[*path as usize].cost as u32),
        )?;
    }
    Ok(())
}

/// What each path of a part that uses the toll costs less than the toll-free path, taken away.
pub(crate) fn push_gaps<N: Exact>(
    entries: &mut Vec<Entry<N>>,
    base: u32,
    paths: &[UsefulPath],
    part: &[u32],
    toll: TollId,
    free: u32,
) -> Result<(), Memory>
    requires part { All (λ p. p < length paths.now) part.now }
    requires toll { toll.0 < 128 }
    requires small { free < 2 ^ 31 }
    requires room { base + length part.now < 2 ^ 32 }
    ensures { OnOk result (terms_of N.rational entries.new.items
        ≡ terms_of N.rational entries.old.items ++ numbers_from base (λ p. negative (if bit_at (path_at (map path_value paths.now) p).tolls toll.0 == 1
        then whole (pos (free - (path_at (map path_value paths.now) p).cost)) else zero_ℚ)) part.now) }
{
    for (i, path) in part.iter().enumerate() {
        let path = &paths[*path as usize];
        push_number(
            entries,
            base + i as u32,
            -on_user(path, toll, u64::from(free).saturating_sub(path.cost)),
        )?;
    }
    Ok(())
}

/// The cap of the toll at each path of a part that uses it.
pub(crate) fn push_caps<N: Exact>(
    entries: &mut Vec<Entry<N>>,
    base: u32,
    paths: &[UsefulPath],
    part: &[u32],
    toll: TollId,
    cap: u32,
) -> Result<(), Memory>
    requires part { All (λ p. p < length paths.now) part.now }
    requires toll { toll.0 < 128 }
    requires small { cap < 2 ^ 31 }
    requires room { base + length part.now < 2 ^ 32 }
    ensures { OnOk result (terms_of N.rational entries.new.items
        ≡ terms_of N.rational entries.old.items ++ numbers_from base (λ p. if bit_at (path_at (map path_value paths.now) p).tolls toll.0 == 1
        then whole (pos cap) else zero_ℚ) part.now) }
{
    for (i, path) in part.iter().enumerate() {
        push_number(
            entries,
            base + i as u32,
            on_user(&paths[*path as usize], toll, u64::from(cap)),
        )?;
    }
    Ok(())
}

/// The number where the path uses the toll, and else 0.
fn on_user(path: &UsefulPath, toll: TollId, number: u64) -> i64
    requires toll { toll.0 < 128 }
    requires small { number < 2 ^ 31 }
    ensures value { result ≡ (if bit_at path.now.tolls toll.0 == 1 then pos number else pos 0) }
    ensures small { nat_abs result < 2 ^ 31 }
{
    if path.tolls.has(toll) {
        number as i64
    } else {
        0
    }
}

/// Minus 1 at each toll of a set.
pub(crate) fn push_tolls<N: Exact>(
    entries: &mut Vec<Entry<N>>,
    tolls: u32,
    set: TollSet,
) -> Result<(), Memory>
    requires { tolls ≤ 128 }
    ensures { OnOk result (terms_of N.rational entries.new.items
        ≡ terms_of N.rational entries.old.items ++ numbers_from 0 (λ b. negative (one_if (bit_at set b == 1))) (range_with_len 0 tolls)) }
{
    for toll in 0..tolls {
        push_number(entries, toll, taken(set, TollId(toll)))?;
    }
    Ok(())
}

/// Minus 1 where the toll is in the set, and else 0.
fn taken(set: TollSet, toll: TollId) -> i64
    requires { toll.0 < 128 }
    ensures value { result ≡ (if bit_at set toll.0 == 1 then negsuc 0 else pos 0) }
    ensures small { nat_abs result < 2 ^ 31 }
{
    if set.has(toll) { -1 } else { 0 }
}
