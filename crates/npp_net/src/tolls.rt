//! A value for each toll arc.

ghost use Rattle.std.specs.Prelude.{◌≡◌};

use crate::listed::Listed;
use std::marker::Model;

/// One value for each toll arc, in the order of their toll numbers: the tolls that the leader sets, which are not
/// negative where travellers answer to them, or what is found of each toll. Contracts see it as a list.
#[derive(Debug, PartialEq, Eq, Drop)]
pub struct Tolls<N> {
    values: Listed<N>,
}

impl<N> Model for Tolls<N> {
    ghost use Rattle.std.specs.Prelude.{List};

    ghost Value = { List N };

    ghost view = { λ t. t.values };

    ghost inverse = { λ values. record { values = values } };
}

impl<N> Tolls<N> {
    /// These values, of which there is one for each toll arc.
    pub fn of(values: Vec<N>) -> Tolls<N>
        ensures { result ≡ values.items }
    {
        Tolls {
            values: Listed::of(values),
        }
    }

    /// The values by toll number.
    pub fn values(&self) -> &[N]
        ensures { result.now ≡ self.now }
    {
        self.values.entries()
    }

    /// The values by toll number, as a `Vec`.
    pub fn into_values(self) -> Vec<N>
        ensures { result.items ≡ self }
    {
        self.values.into_entries()
    }
}
