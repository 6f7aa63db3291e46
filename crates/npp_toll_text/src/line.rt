//! The line of a toll.

ghost use Rattle.std.specs.Prelude.{◌≡◌, ◌≢◌, ◌↔◌, ℕ, ◌==◌, pos, position, List, ◌∷◌, ◌++◌, All, IsTrue, IfSome, IsSomeAnd};
ghost use Rattle.npp_frac.specs.Rational.{Rational, whole};
ghost use Rattle.npp_frac.specs.Fits.{FitsBelow, limit_of};
ghost use Rattle.npp_frac.specs.Wide.{value_of_wide};
ghost use Rattle.npp_toll_text.specs.TollsText.{toll_line};

use npp_frac::{Exact, Frac128, parse_fraction};

/// The word that begins the line of a toll, and the blank behind it.
const WORD: &[u8] = b"toll ";

/// The toll that the first line of the bytes gives the toll arc of this number, and what stands behind the line. None
/// where the first line is no such line.
pub(crate) fn first_toll(number: u32, bytes: &[u8]) -> Option<(Frac128, &[u8])>
    ensures text { IfSome result (λ r. bytes.now ≡ toll_line number (value_of_wide r.0) ++ r.1.now) }
    ensures each { (toll : Rational) (after : List ℕ) → FitsBelow (limit_of 128) toll → bytes.now ≡ toll_line number toll ++ after
        → IsSomeAnd result (λ r. (value_of_wide r.0 ≡ toll) × (r.1.now ≡ after)) }
{
    let fields = bytes.strip_prefix(WORD)?;
    let (name, rest) = split_at_first(fields, b' ')?;
    if !is_number(parse_fraction(name)?, number) {
        return None;
    }
    let (value, after) = split_at_first(rest, b'\n')?;
    Some((parse_fraction(value)?, after))
}

/// What stands before the first such byte, and what stands behind it. None where there is no such byte.
fn split_at_first(bytes: &[u8], byte: u8) -> Option<(&[u8], &[u8])>
    ensures parts { IfSome result (λ r. bytes.now ≡ r.0.now ++ byte ∷ r.1.now) }
    ensures each { (before behind : List ℕ) → bytes.now ≡ before ++ byte ∷ behind → All (λ b. b ≢ byte) before
        → IsSomeAnd result (λ r. (r.0.now ≡ before) × (r.1.now ≡ behind)) }
{
    let at = first_place(bytes, byte)?;
    Some((&bytes[..at], &bytes[at + 1..]))
}

/// Where the first such byte stands.
fn first_place(bytes: &[u8], byte: u8) -> Option<usize>
    ensures { result ≡ position (λ b. b == byte) bytes.now }
{
    bytes.iter().position(|b| *b == byte)
}

/// Whether a fraction is this whole number.
fn is_number(value: Frac128, number: u32) -> bool
    ensures { IsTrue result ↔ (value_of_wide value ≡ whole (pos number)) }
{
    value.cmp(fraction_of(number)).is_eq()
}

/// A whole number as a fraction.
pub(crate) fn fraction_of(number: u32) -> Frac128
    ensures { value_of_wide result ≡ whole (pos number) }
{
    Frac128::of_whole(i64::from(number))
}
