//! Pairs of words in long numbers.

ghost use Rattle.std.specs.Prelude.{◌≡◌};
ghost use Rattle.npp_frac.specs.Value.{value_of, value_of_words};

use crate::reduced::Reduced;
use crate::reduced_words::ReducedWords;

impl ReducedWords {
    /// The same pair in long numbers.
    #[inline(always)]
    pub fn long(self) -> Reduced
        ensures { value_of result ≡ value_of_words self }
    {
        Reduced {
            num: i128::from(self.num),
            den: u128::from(self.den),
        }
    }
}
