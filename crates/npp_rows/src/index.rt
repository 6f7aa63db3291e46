//! The numbers of the rows and columns of a relaxation.

ghost use Rattle.std.specs.Prelude.{◌≡◌, ◌<◌, ◌≤◌, ◌+◌, ◌==◌, ◌||◌, ℕ, length, All, map, filter, IfOk};
ghost use Rattle.std.specs.List.{list_any, range_with_len, AllPairs};
ghost use Rattle.std.specs.Int.{bit_at};
ghost use Rattle.npp_cover.specs.PathValue.{path_value};
ghost use Rattle.npp_cover.specs.Replaces.{sum_below, path_at};
ghost use Rattle.npp_rows.specs.PathModel.{cover_at, path_count, commodities};
ghost use Rattle.npp_rows.specs.Limits.{IsWithinLimits};
ghost use Rattle.npp_rows.specs.Parts.{IsAllowed, IsPart, part_at};
ghost use Rattle.npp_rows.specs.Relax.{allowed_tolls};
ghost use Rattle.npp_rows.specs.Family.{share_count, paid_count};
ghost use Rattle.npp_rows.specs.Rows.{shares_from, paid_from};

use crate::allowed::Allowed;
use crate::search::piece_of;
use crate::starts::list_starts;
use crate::table::PathTable;
use npp_cover::UsefulPath;
use npp_net::{Listed, Memory, TollSet};
use std::alloc::Global;
use std::marker::Model;

/// An allowed family of paths, with what tells the numbers of the rows and columns of its relaxation: the tolls that the
/// allowed paths of each commodity use, and how many shares and tolls stand before those of a commodity.
#[derive(Drop)]
pub struct RelaxationIndex<'a> {
    table: &'a PathTable<'a>,
    allowed: &'a Allowed,
    used: Vec<Listed<u32>>,
    shares: Vec<u32>,
    paid: Vec<u32>,
}

impl<'a> Model for RelaxationIndex<'a> {
    ghost use Rattle.npp_rows.specs.Family.{Family, IsIndexed};

    ghost Value = { Family };

    ghost view = { λ i. record { paths = i.table.now; parts = i.allowed.now.parts } };

    ghost invariant = { λ i. IsIndexed i.table.now i.allowed.now.parts i.used.items i.shares.items i.paid.items };
}

impl<'a> RelaxationIndex<'a> {
    /// The index of an allowed family.
    pub fn new(
        alloc: Global,
        table: &'a PathTable<'a>,
        allowed: &'a Allowed,
    ) -> Result<RelaxationIndex<'a>, Memory>
        requires { IsAllowed table.now allowed.now.parts }
        ensures { IfOk result (λ i. i ≡ record { paths = table.now; parts = allowed.now.parts }) }
    {
        let used = used_tolls(alloc, table, allowed)?;
        let shares = list_starts(alloc, allowed.parts.entries())?;
        let paid = list_starts(alloc, &used)?;
        Ok(RelaxationIndex {
            table,
            allowed,
            used,
            shares,
            paid,
        })
    }

    /// The table of the useful paths.
    pub fn table(&self) -> &PathTable<'a>
        ensures same { result.now ≡ self.now.paths }
        ensures limits { IsWithinLimits self.now.paths }
        ensures allowed { IsAllowed self.now.paths self.now.parts }
    {
        self.table
    }

    /// The allowed paths of a commodity.
    pub fn part(&self, k: u32) -> &[u32]
        requires { k < length self.now.paths.covers }
        ensures part { result.now ≡ part_at self.now.parts k }
        ensures some { IsPart (path_count self.now.paths k) result.now }
        ensures few { length result.now ≤ 16777216 }
    {
        self.allowed.parts.entries()[k as usize].entries()
    }

    /// The tolls that the allowed paths of a commodity use, by rising number.
    pub fn used(&self, k: u32) -> &[u32]
        requires { k < length self.now.paths.covers }
        ensures tolls { result.now ≡ allowed_tolls self.now.paths self.now.parts k }
        ensures few { length result.now ≤ 128 }
        ensures rising { AllPairs (λ a b. a < b) result.now }
    {
        self.used[k as usize].entries()
    }

    /// How many allowed paths the commodities below this number have together.
    pub fn shares_below(&self, k: u32) -> u32
        requires { k ≤ length self.now.paths.covers }
        ensures value { result ≡ sum_below (share_count self.now.parts) k }
        ensures small { result ≤ 16777216 }
    {
        self.shares[k as usize]
    }

    /// The commodity of a share by its number among all shares. It takes the time of a search among the commodities.
    pub(crate) fn commodity_of(&self, share: u32) -> u32
        requires { share < sum_below (share_count self.now.parts) (length self.now.paths.covers) }
        ensures inside { result < length self.now.paths.covers }
        ensures low { sum_below (share_count self.now.parts) result ≤ share }
        ensures high { share < sum_below (share_count self.now.parts) (result + 1) }
    {
        piece_of(&self.shares, share) as u32
    }

    /// How many tolls the allowed paths of the commodities below this number use, counted for each of them.
    pub fn paid_below(&self, k: u32) -> u32
        requires { k ≤ length self.now.paths.covers }
        ensures value { result ≡ sum_below (paid_count self.now.paths self.now.parts) k }
        ensures small { result ≤ 12800 }
    {
        self.paid[k as usize]
    }
}

impl RelaxationIndex<'_> {
    /// The number of the column of the first share of a commodity.
    pub fn first_share(&self, k: u32) -> u32
        requires { k ≤ length self.now.paths.covers }
        ensures value { result ≡ shares_from self.now.paths self.now.parts k }
        ensures small { result ≤ 16777344 }
    {
        self.table().tolls() + self.shares_below(k)
    }

    /// The number of the first column of what a commodity pays.
    pub fn first_paid(&self, k: u32) -> u32
        requires { k ≤ length self.now.paths.covers }
        ensures value { result ≡ paid_from self.now.paths self.now.parts k }
        ensures small { result ≤ 16790144 }
    {
        self.first_share(self.table().commodities()) + self.paid_below(k)
    }
}

/// The tolls that the allowed paths of each commodity use.
fn used_tolls(
    alloc: Global,
    table: &PathTable,
    allowed: &Allowed,
) -> Result<Vec<Listed<u32>>, Memory>
    requires { IsAllowed table.now allowed.now.parts }
    ensures used { IfOk result (λ v. v.items ≡ map (allowed_tolls table.now allowed.now.parts) (commodities table.now)) }
    ensures limits { IsWithinLimits table.now }
{
    let parts = allowed.parts.entries();
    let tolls = table.tolls();
    let mut used = Vec::new(alloc);
    for k in 0..table.commodities() {
        let part = parts[k as usize].entries();
        used.push(Listed::of(tolls_on(alloc, tolls, table.paths(k), part)?))?;
    }
    Ok(used)
}

/// The tolls that paths of a part use, by rising number. It takes the time of the paths and of their tolls.
fn tolls_on(
    alloc: Global,
    tolls: u32,
    paths: &[UsefulPath],
    part: &[u32],
) -> Result<Vec<u32>, Memory>
    requires tolls { tolls ≤ 128 }
    requires part { All (λ p. p < length paths.now) part.now }
    ensures { IfOk result (λ v. v.items ≡ filter (λ a. list_any (λ p. bit_at (path_at (map path_value paths.now) p).tolls a == 1) part.now) (range_with_len 0 tolls)) }
{
    let mut on = Vec::new(alloc);
    for toll in tolls_of(paths, part).tolls() {
        if toll.0 < tolls {
            on.push(toll.0)?;
        }
    }
    Ok(on)
}

/// The tolls that some path of a part uses.
fn tolls_of(paths: &[UsefulPath], part: &[u32]) -> TollSet
    requires { All (λ p. p < length paths.now) part.now }
    ensures { (a : ℕ) → a < 128
        → (bit_at result a == 1) ≡ list_any (λ p. bit_at (path_at (map path_value paths.now) p).tolls a == 1) part.now }
{
    let mut set = TollSet::empty();
    for path in part {
        set = union(set, paths[*path as usize].tolls);
    }
    set
}

/// The tolls of two sets. It takes the time of the tolls of the second, where it has one that the first lacks.
fn union(set: TollSet, other: TollSet) -> TollSet
    ensures { (a : ℕ) → a < 128 → (bit_at result a == 1) ≡ ((bit_at set a == 1) || (bit_at other a == 1)) }
{
    if other.is_within(set) {
        return set;
    }
    let mut all = set;
    for toll in other.tolls() {
        all = all.with(toll);
    }
    all
}
