//! The caps of the tolls: what no toll needs to exceed.

ghost use Rattle.std.specs.Prelude.{◌≡◌, ◌≢◌, ◌<◌, ◌≤◌, ◌==◌, ℕ, max, fold, map, length, slice_index, IfOk, if◌then◌else◌};
ghost use Rattle.std.specs.Int.{bit_at};
ghost use Rattle.npp_net.specs.Network.{IsNetwork, toll_count, ceiling_of};
ghost use Rattle.npp_cover.specs.Caps.{within_ceiling};
ghost use Rattle.npp_rows.specs.Lowering.{CanBeLowered};
ghost use Rattle.npp_rows.specs.Caps.{toll_gap, greatest_gap, toll_caps, AreCaps};

use npp_cover::Cover;
use npp_net::{Instance, Memory, TollId, TollSet};
use std::alloc::Global;

/// The cap of each toll.
///
/// It is the most by which a useful path with this toll costs less than the toll-free path of its commodity, or 0 where
/// no useful path has it, and at most the ceiling of its arc. The covers are those of the instance, one for each
/// commodity in order. Every outcome earns as much as one at tolls up to the caps whose walks are useful paths.
pub fn caps(alloc: Global, instance: &Instance, covers: &[Cover]) -> Result<Vec<u64>, Memory>
    ensures caps { IfOk result (λ v. v.items ≡ toll_caps instance.now covers.now) }
    ensures each { IfOk result (λ v. AreCaps instance.now covers.now v.items) }
    ensures limits { IsNetwork instance.now }
    ensures lowered { CanBeLowered instance.now covers.now }
{
    let gaps = greatest_gaps(alloc, instance.tolls(), covers)?;
    let mut caps = Vec::new(alloc);
    for toll in 0..instance.tolls() {
        caps.push(capped(instance, TollId(toll), gaps[toll as usize]))?;
    }
    Ok(caps)
}

/// A gap of a toll, and at most the ceiling of its arc.
fn capped(instance: &Instance, toll: TollId, gap: u64) -> u64
    requires { toll.0 < toll_count instance.now.arcs }
    ensures { result ≡ within_ceiling (ceiling_of instance.now.arcs toll.0) gap }
{
    match instance.ceiling(toll) {
        Some(ceiling) => gap.min(u64::from(ceiling)),
        None => gap,
    }
}

/// For each toll the most by which a path with it costs less than the toll-free path of its commodity. It takes the time of
/// the tolls of each path.
fn greatest_gaps(alloc: Global, tolls: u32, covers: &[Cover]) -> Result<Vec<u64>, Memory>
    requires { tolls ≤ 128 }
    ensures size { IfOk result (λ v. length v.items ≡ tolls) }
    ensures gaps { IfOk result (λ v. (a : ℕ) → a < tolls → slice_index v.items a ≡ greatest_gap covers.now a) }
{
    let mut gaps = vec![in alloc; 0; tolls as usize]?;
    for cover in covers {
        raise_by_paths(gaps.as_mut_slice(), cover);
    }
    Ok(gaps)
}

/// Raises the gaps of the tolls to what paths of a cover with them cost less than its toll-free path.
fn raise_by_paths(gaps: &mut [u64], cover: &Cover)
    requires { length gaps.old ≤ 128 }
    ensures size { length gaps.new ≡ length gaps.old }
    ensures gaps { (a : ℕ) → a < length gaps.old
        → slice_index gaps.new a ≡ fold max (slice_index gaps.old a) (map (toll_gap a cover.now.free) cover.now.paths) }
{
    let free = cover.free_cost();
    for path in cover.paths() {
        raise_on(gaps, path.tolls, free.saturating_sub(path.cost));
    }
}

/// Raises the gaps of the tolls of a set to this one.
fn raise_on(gaps: &mut [u64], set: TollSet, gap: u64)
    requires { length gaps.old ≤ 128 }
    ensures size { length gaps.new ≡ length gaps.old }
    ensures gaps { (a : ℕ) → a < length gaps.old
        → slice_index gaps.new a ≡ max (slice_index gaps.old a) (if bit_at set a == 1 then gap else 0) }
{
    for toll in set.tolls() {
        raise_one(gaps, toll, gap);
    }
}

/// Raises the gap of a toll to this one.
fn raise_one(gaps: &mut [u64], toll: TollId, gap: u64)
    ensures size { length gaps.new ≡ length gaps.old }
    ensures raised { toll.0 < length gaps.old → slice_index gaps.new toll.0 ≡ max (slice_index gaps.old toll.0) gap }
    ensures others { (a : ℕ) → a ≢ toll.0 → slice_index gaps.new a ≡ slice_index gaps.old a }
{
    let place = toll.0 as usize;
    if place < gaps.len() {
        gaps[place] = gaps[place].max(gap);
    }
}
