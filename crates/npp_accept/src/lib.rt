//! What is printed of a search is accepted by the check of certificates: laws about their definitions. The functions do
//! nothing.
#![tactic(auto)]

ghost use Rattle.npp_tree.specs.declared.outcome.Outcome.{Outcome};
ghost use Rattle.npp_tree.specs.Outcome.{outcome_value};
ghost use Rattle.npp_accept.specs.Accepted.{OutcomesAreAccepted};
ghost use Rattle.npp_accept.specs.Numbers.{HasNumbers};

use npp_frac::Exact;

/// The lines of an outcome to which a search came at a width, over the useful covers of an instance with at most 2,000
/// paths and with a budget below 2^32: each of them is a line of the format, and together they are a certificate that the
/// check, which reads fractions of 128 bits, accepts with the lower and the upper value of the outcome.
pub fn outcomes_are_accepted()
    ensures { OutcomesAreAccepted }
{}

/// The fractions of an outcome of each width have 128 bits.
pub fn outcomes_have_numbers<N: Exact>()
    ensures { (o : Outcome N) → HasNumbers (outcome_value N.rational o) }
{}
