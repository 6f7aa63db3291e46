//! Sets of toll arcs.

use crate::types::TollId;
use std::marker::Model;

/// A set of toll numbers below 128.
#[derive(Clone, Copy, Debug, PartialEq, Eq)]
pub struct TollSet(u128);

impl Model for TollSet {
    ghost use Rattle.std.specs.Prelude.{ℕ};

    ghost Value = { ℕ };

    ghost view = { λ s. s.0 };

    ghost inverse = { λ n. record { 0 = n } };
}

impl TollSet {
    ghost use Rattle.std.specs.Prelude.{◌≡◌, ◌≢◌, ◌↔◌, ◌<◌, ℕ, IsTrue};
    ghost use Rattle.std.specs.Int.{bit_at};
    ghost use Rattle.npp_net.specs.TollSets.{Has, IsWithin, size_of, tolls_of};

    /// The set of no toll.
    pub fn empty() -> TollSet
        ensures number { result ≡ 0 }
        ensures none { (a : ℕ) → Has result a → ⊥ }
    {
        TollSet(0)
    }

    /// This set and one more toll, which may be in it already.
    #[tactic(auto, using(crate::proofs::TollSetLemmas::bit_put, crate::proofs::TollSetLemmas::bits_kept))]
    pub fn with(self, toll: TollId) -> TollSet
        requires { toll.0 < 128 }
        ensures added { Has result toll.0 }
        ensures others { (a : ℕ) → a ≢ toll.0 → bit_at result a ≡ bit_at self a }
    {
        TollSet(self.0 | (1 << toll.0))
    }

    /// Whether the toll is in the set.
    pub fn has(self, toll: TollId) -> bool
        requires { toll.0 < 128 }
        ensures { IsTrue result ↔ Has self toll.0 }
    {
        (self.0 >> toll.0) & 1 == 1
    }

    /// Whether each toll of this set is in the other.
    #[tactic(auto, using(crate::proofs::TollSetLemmas::within_test))]
    pub fn is_within(self, other: TollSet) -> bool
        ensures { IsTrue result ↔ IsWithin self other }
    {
        self.0 & other.0 == self.0
    }

    /// How many tolls are in the set.
    pub fn size(self) -> u32
        ensures { result ≡ size_of self }
    {
        self.0.count_ones()
    }

    /// The number whose bit a tells whether toll a is in the set.
    pub fn number(self) -> u128
        ensures { result ≡ self }
    {
        self.0
    }

    /// The tolls of the set by rising number. It takes as many steps as there are tolls in the set.
    pub fn tolls(self) -> TollsOfSet
        ensures { result ≡ tolls_of self }
    {
        TollsOfSet { left: self.0 }
    }
}

/// The tolls of a set that are still to come, by rising number.
#[derive(Debug, Drop)]
pub struct TollsOfSet {
    left: u128,
}

impl Model for TollsOfSet {
    ghost use Rattle.std.specs.Prelude.{ℕ, List};
    ghost use Rattle.npp_net.specs.TollSets.{tolls_of};

    ghost Value = { List ℕ };

    ghost view = { λ tolls. tolls_of tolls.left };
}

impl Iterator for TollsOfSet {
    ghost use Rattle.std.specs.Iterator.{YieldsFirstBy, item_count};

    type Item = TollId;

    ghost next_gives = { YieldsFirstBy (λ toll. toll.0) (λ tolls. tolls) };

    ghost remaining = { item_count (λ tolls. tolls) };

    #[tactic(auto, using(crate::proofs::TollSetLaws::tolls_of_lowest, crate::proofs::TollSetLaws::tolls_of_none))]
    fn next(&mut self) -> Option<TollId> {
        if self.left == 0 {
            return None;
        }
        let lowest = self.left.trailing_zeros();
        self.left &= !(1 << lowest);
        Some(TollId(lowest))
    }
}
