//! Derived rows: why each outcome meets a row, checked.

ghost use Rattle.std.specs.Prelude.{◌≡◌, ◌≤◌, ◌⊎◌, Err, length, map, All, IfOk};
ghost use Rattle.npp_frac.specs.Fits.{limit_of};
ghost use Rattle.npp_rows.specs.declared.cut.CutFault.{CutFault};
ghost use Rattle.npp_rows.specs.Caps.{path_model};
ghost use Rattle.npp_rows.specs.Limits.{path_total};
ghost use Rattle.npp_rows.specs.Lowering.{AreClosedCovers};
ghost use Rattle.npp_rows.specs.Promises.{DerivationHolds};
ghost use Rattle.npp_rows.specs.Cuts.{IsCut};
ghost use Rattle.npp_rows.specs.Derivations.{derivation_verdict};
ghost use Rattle.npp_rows.specs.Meaning.{cut_value, derivation_value, derivation_result};
ghost use Rattle.npp_rows.specs.Parts.{all_paths};

use crate::conflict::derive_conflict;
use crate::conflict_rows::TwoPaths;
use crate::cut::{CutFault, CutRow, Derivation};
use crate::index::RelaxationIndex;
use crate::pair::{PathAndOther, derive_pair};
use crate::round::derive_round;
use crate::table::PathTable;
use npp_cover::Cover;
use npp_frac::Exact;
use npp_net::Instance;
use std::alloc::Global;

/// The row that a derivation gives after some earlier rows, or the first fault of the derivation.
///
/// Where every outcome meets the earlier rows, it meets the derived row as well. Faults are judged in the order of
/// [`CutFault`], but for `NotAConflict`, which is the last fault of a pair: names first, each of all multipliers or cuts, then
/// their order, then signs, then the sums. The covers are those of the instance, one for each commodity in order, and the terms
/// of each earlier row name useful paths, by rising commodity and path, and are not 0.
pub fn check_derivation<N: Exact>(
    alloc: Global,
    instance: &Instance,
    covers: &[Cover],
    earlier: &[CutRow<N>],
    derivation: &Derivation<N>,
) -> Result<CutRow<N>, CutFault<N>>
    requires covers { AreClosedCovers instance.now covers.now }
    requires few { path_total covers.now ≤ 16777216 }
    requires earlier { All (λ c. IsCut (path_model instance.now covers.now) (cut_value N.rational c)) earlier.now }
    requires few_earlier { length earlier.now ≤ 16777216 }
    ensures verdict { (result ≡ Err CutFault.Memory) ⊎ (derivation_result N.rational result
        ≡ derivation_verdict (limit_of N.WIDTH) (path_model instance.now covers.now) (map (cut_value N.rational) earlier.now) (derivation_value N.rational derivation.now)) }
    ensures cut { IfOk result (λ c. IsCut (path_model instance.now covers.now) (cut_value N.rational c)) }
    ensures holds { DerivationHolds instance.now (path_model instance.now covers.now) }
{
    let table = PathTable::new(alloc, instance, covers)?;
    table.check_derivation(alloc, earlier, derivation)
}

impl PathTable<'_> {
    /// The row that a derivation gives after some earlier rows, or the first fault of the derivation.
    pub fn check_derivation<N: Exact>(
        &self,
        alloc: Global,
        earlier: &[CutRow<N>],
        derivation: &Derivation<N>,
    ) -> Result<CutRow<N>, CutFault<N>>
        requires earlier { All (λ c. IsCut self.now (cut_value N.rational c)) earlier.now }
        requires few { length earlier.now ≤ 16777216 }
        ensures verdict { (result ≡ Err CutFault.Memory) ⊎ (derivation_result N.rational result
            ≡ derivation_verdict (limit_of N.WIDTH) self.now (map (cut_value N.rational) earlier.now) (derivation_value N.rational derivation.now)) }
        ensures cut { IfOk result (λ c. IsCut self.now (cut_value N.rational c)) }
    {
        match derivation {
            Derivation::Conflict { k, p, l, q, y } => {
                let two = TwoPaths {
                    k: *k,
                    p: *p,
                    l: *l,
                    q: *q,
                };
                derive_conflict(alloc, self, two, y.entries())
            }
            Derivation::Pair { k, p, l, cuts } => {
                let pair = PathAndOther {
                    k: *k,
                    p: *p,
                    l: *l,
                };
                derive_pair(alloc, self, earlier, pair, cuts.entries())
            }
            Derivation::Round { y } => derive_round(alloc, self, earlier, y.entries()),
        }
    }
}

impl RelaxationIndex<'_> {
    /// The row that a derivation gives after some earlier rows, or the first fault of the derivation: what
    /// [`check_derivation`](PathTable::check_derivation) of the table answers.
    ///
    /// The index is that of all useful paths. It is made once for all derivations, so a Round costs what its rows and the
    /// columns do.
    pub fn check_derivation<N: Exact>(
        &self,
        alloc: Global,
        earlier: &[CutRow<N>],
        derivation: &Derivation<N>,
    ) -> Result<CutRow<N>, CutFault<N>>
        requires whole { self.now.parts ≡ all_paths self.now.paths }
        requires earlier { All (λ c. IsCut self.now.paths (cut_value N.rational c)) earlier.now }
        requires few { length earlier.now ≤ 16777216 }
        ensures verdict { (result ≡ Err CutFault.Memory) ⊎ (derivation_result N.rational result
            ≡ derivation_verdict (limit_of N.WIDTH) self.now.paths (map (cut_value N.rational) earlier.now) (derivation_value N.rational derivation.now)) }
        ensures cut { IfOk result (λ c. IsCut self.now.paths (cut_value N.rational c)) }
    {
        match derivation {
            Derivation::Conflict { .. } | Derivation::Pair { .. } => {
                self.table().check_derivation(alloc, earlier, derivation)
            }
            Derivation::Round { y } => self.round(alloc, earlier, y.entries()),
        }
    }
}
