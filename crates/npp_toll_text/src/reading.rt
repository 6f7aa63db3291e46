//! Reading a tolls text.

ghost use Rattle.std.specs.Prelude.{◌≡◌, ◌⊎◌, ◌<◌, ◌++◌, ℕ, List, map, Err, IfOk, IfSome, IsSomeAnd, MatchResult};
ghost use Rattle.npp_frac.specs.Rational.{Rational};
ghost use Rattle.npp_frac.specs.Wide.{value_of_wide};
ghost use Rattle.npp_net.specs.Network.{toll_count};
ghost use Rattle.npp_toll_text.specs.Allowed.{IsToll};
ghost use Rattle.npp_toll_text.specs.TollsText.{IsTollsText, toll_line};
ghost use Rattle.npp_toll_text.specs.Refused.{IsRefusedLine};

use crate::allowed::is_allowed;
use crate::line::first_toll;
use crate::refusal::TollsRefusal;
use npp_frac::Frac128;
use npp_net::{Instance, TollId, Tolls};
use std::alloc::Global;

/// The first line of the text.
const HEADER: &[u8] = b"npp-tolls 1\n";

/// The tolls of a tolls text, one for each toll arc of the instance in the order of their numbers, or the first line that
/// is not the line that must stand there.
///
/// The text has the line `npp-tolls 1` and then the line `toll A F` of each toll arc, by rising number A from 0. F is the
/// one text of a fraction at 128 bits; it is not negative and not above the ceiling of the arc. Each line ends with a line
/// feed, the fields are divided by one space, and nothing else stands in the text.
pub fn read_tolls(
    alloc: Global,
    instance: &Instance,
    bytes: &[u8],
) -> Result<Tolls<Frac128>, TollsRefusal>
    ensures text { IfOk result (λ tolls. IsTollsText instance.now.arcs bytes.now (map value_of_wide tolls)) }
    ensures each { (tolls : List Rational) → IsTollsText instance.now.arcs bytes.now tolls
        → MatchResult result (λ read. map value_of_wide read ≡ tolls) (λ refusal. refusal ≡ TollsRefusal.Memory) }
    ensures refused { (number : ℕ) → result ≡ Err (TollsRefusal.Line number) → IsRefusedLine instance.now.arcs bytes.now number }
    ensures named { (number : ℕ) → IsRefusedLine instance.now.arcs bytes.now number
        → MatchResult result (λ _. ⊥) (λ refusal. (refusal ≡ TollsRefusal.Line number) ⊎ (refusal ≡ TollsRefusal.Memory)) }
{
    let count = instance.tolls();
    let Some(mut rest) = bytes.strip_prefix(HEADER) else {
        return Err(TollsRefusal::Line(1));
    };
    let mut tolls = Vec::new(alloc);
    for number in 0..count {
        let Some((toll, after)) = next_toll(instance, TollId(number), rest) else {
            return Err(TollsRefusal::Line(number + 2));
        };
        tolls.push(toll)?;
        rest = after;
    }
    if rest.is_empty() {
        Ok(Tolls::of(tolls))
    } else {
        Err(TollsRefusal::Line(count + 2))
    }
}

/// The toll of a toll arc by the first line of the bytes, and what stands behind the line. None where the first line is no
/// line of that arc with a toll that may be set.
fn next_toll<'b>(instance: &Instance, toll: TollId, bytes: &'b [u8]) -> Option<(Frac128, &'b [u8])>
    requires { toll.0 < toll_count instance.now.arcs }
    ensures text { IfSome result (λ r. bytes.now ≡ toll_line toll.0 (value_of_wide r.0) ++ r.1.now) }
    ensures allowed { IfSome result (λ r. IsToll instance.now.arcs toll.0 (value_of_wide r.0)) }
    ensures each { (value : Rational) (after : List ℕ) → IsToll instance.now.arcs toll.0 value → bytes.now ≡ toll_line toll.0 value ++ after
        → IsSomeAnd result (λ r. (value_of_wide r.0 ≡ value) × (r.1.now ≡ after)) }
{
    let (value, after) = first_toll(toll.0, bytes)?;
    if is_allowed(instance, toll, value) {
        Some((value, after))
    } else {
        None
    }
}
