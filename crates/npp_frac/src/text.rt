//! The text of a fraction, read and printed.

ghost use Rattle.std.specs.Prelude.{◌≡◌, ◌≢◌, ◌<◌, ◌^◌, ◌↔◌, ◌++◌, IsTrue, ℕ, pos, cond, int_lt, neg_ℤ, length, slice_index, Some, IfSome, IfNone, IsSomeAnd, IfOk};
ghost use Rattle.std.specs.Fmt.{decimal};
ghost use Rattle.std.specs.String.{string_bytes};
ghost use Rattle.npp_frac.specs.Gcd.{gcd as gcd_of};
ghost use Rattle.npp_frac.specs.Rational.{Rational};
ghost use Rattle.npp_frac.specs.FractionText.{IsFractionText, IsPairText};
ghost use Rattle.npp_frac.specs.Wide.{value_of_wide};

use crate::exact::Exact;
use crate::frac128::Frac128;
use crate::gcd::gcd;
use crate::numbers::with_sign;
use crate::reduced::Reduced;
use crate::refusal::Memory;
use std::alloc::Global;

/// The denominator of a whole number, which its text leaves out.
const WHOLE: i128 = 1;

/// The fraction that a text of 128 bits stands for: digits without leading zeros, or such digits,
/// a slash and a denominator of at least 2 without a common factor. A minus sign may stand before
/// them, but not before zero. Anything else is None.
pub fn parse_fraction(bytes: &[u8]) -> Option<Frac128>
    ensures text { IfSome result (λ f. IsFractionText bytes.now (value_of_wide f)) }
    ensures each { (q : Rational) → IsFractionText bytes.now q → IsSomeAnd result (λ f. value_of_wide f ≡ q) }
{
    if is_negative(bytes) {
        let (num, den) = pair_of(&bytes[1..])?;
        if num == 0 {
            return None;
        }
        Some(signed(num, den, -1))
    } else {
        let (num, den) = pair_of(bytes)?;
        Some(signed(num, den, 1))
    }
}

/// The one text of a value.
pub fn print_fraction<N: Exact>(alloc: Global, value: N) -> Result<String, Memory>
    ensures { IfOk result (λ text. IsFractionText (string_bytes text) (N.rational value)) }
{
    let num = value.num();
    let den = value.den();
    if den == WHOLE {
        Ok(format!(in alloc; "{num}")?)
    } else {
        Ok(format!(in alloc; "{num}/{den}")?)
    }
}

/// Whether a minus sign stands first.
fn is_negative(bytes: &[u8]) -> bool
    ensures { IsTrue result ↔ (slice_index bytes.now 0 ≡ 45) }
{
    !bytes.is_empty() && bytes[0] == b'-'
}

/// The fraction of a pair, with the sign of a number.
fn signed(num: u128, den: u128, sign: i128) -> Frac128
    requires positive { 0 < den }
    requires reduced { gcd_of num den ≡ 1 }
    requires num { num < 2 ^ 127 }
    requires den { den < 2 ^ 127 }
    ensures num { (value_of_wide result).num ≡ cond (int_lt sign (pos 0)) (neg_ℤ (pos num)) (pos num) }
    ensures den { (value_of_wide result).den ≡ den }
{
    Frac128 {
        pair: Reduced {
            num: with_sign(num, sign),
            den,
        },
    }
}

/// The numerator and the denominator of a text without a sign.
fn pair_of(bytes: &[u8]) -> Option<(u128, u128)>
    ensures text { IfSome result (λ p. IsPairText bytes.now p.0 p.1) }
    ensures each { (n d : ℕ) → IsPairText bytes.now n d → result ≡ Some (n, d) }
{
    match slash(bytes) {
        None => Some((whole_number(bytes)?, 1)),
        Some(at) => {
            let num = whole_number(&bytes[..at])?;
            let den = whole_number(&bytes[at + 1..])?;
            if is_proper(num, den) {
                Some((num, den))
            } else {
                None
            }
        }
    }
}

/// Whether a pair may stand in a text with its denominator.
fn is_proper(num: u128, den: u128) -> bool
    ensures { IsTrue result ↔ ((1 < den) × (gcd_of num den ≡ 1)) }
{
    1 < den && gcd(num, den) == 1
}

/// The index of the first slash.
fn slash(bytes: &[u8]) -> Option<usize>
    ensures found { IfSome result (λ i. (i < length bytes.now) × (slice_index bytes.now i ≡ 47)) }
    ensures before { IfSome result (λ i. (k : ℕ) → k < i → slice_index bytes.now k ≢ 47) }
    ensures none { IfNone result ((k : ℕ) → k < length bytes.now → slice_index bytes.now k ≢ 47) }
{
    for (i, byte) in bytes.iter().enumerate() {
        if *byte == b'/' {
            return Some(i);
        }
    }
    None
}

/// The whole number that digits without leading zeros write, where it is below `2^127`.
fn whole_number(digits: &[u8]) -> Option<u128>
    ensures text { IfSome result (λ n. (n < 2 ^ 127) × (digits.now ≡ decimal n)) }
    ensures each { (n : ℕ) → n < 2 ^ 127 → digits.now ≡ decimal n → result ≡ Some n }
{
    if !is_plain(digits) {
        return None;
    }
    let Ok(text) = std::str::from_utf8(digits) else {
        return None;
    };
    let Ok(number) = text.parse::<u128>() else {
        return None;
    };
    if number < 1 << 127 {
        Some(number)
    } else {
        None
    }
}

/// Whether neither a plus sign nor a zero, which `parse` would take, stands before other bytes.
fn is_plain(digits: &[u8]) -> bool
    ensures { IsTrue result ↔ (1 < length digits.now → (slice_index digits.now 0 ≢ 48) × (slice_index digits.now 0 ≢ 43)) }
{
    digits.len() < 2 || (digits[0] != b'0' && digits[0] != b'+')
}
