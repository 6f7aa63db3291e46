//! The fields that are names, numbers and ceilings.

ghost use Rattle.std.specs.Prelude.{◌≡◌, true, false, not, nat_lt, [], ◌∷◌, MatchResult};
ghost use Rattle.std.specs.List.{list_all};
ghost use Rattle.std.specs.Char.{is_ascii_digit};
ghost use Rattle.std.specs.Str.Parse.{digits_value};
ghost use Rattle.npp_reader.specs.Fields as fields;
ghost use Rattle.npp_reader.specs.Grammar.{judged};
ghost use Rattle.npp_net.specs.Refusal.{is_ceiling_too_large};

use crate::kind::LineKind;
use npp_net::{MAX_CEILING, MAX_NUMBER};

/// The most bytes of a name.
const MAX_NAME: usize = 32;

/// The most digits of a number, leading zeros included.
const MAX_DIGITS: usize = 18;

fn is_name_byte(byte: u8) -> bool
    ensures { result ≡ fields.is_name_byte byte }
{
    byte.is_ascii_alphanumeric() || byte == b'_' || byte == b'-' || byte == b'.'
}

fn are_name_bytes(field: &[u8]) -> bool
    ensures { result ≡ list_all fields.is_name_byte field.now }
{
    field.iter().all(|b| is_name_byte(*b))
}

#[tactic(auto, unfolding(crate::specs::Fields::is_name), using(crate::proofs::FieldLemmas::name_test))]
fn is_name(field: &[u8]) -> bool
    ensures { result ≡ fields.is_name field.now }
{
    !field.is_empty() && field.len() <= MAX_NAME && are_name_bytes(field)
}

/// The text of a field that is a name.
pub(crate) fn name_of(field: &[u8]) -> Result<&str, LineKind>
    ensures { MatchResult result
        (λ name. (name.now ≡ field.now) × (fields.is_name field.now ≡ true))
        (λ kind. (kind ≡ LineKind.BadName) × (fields.is_name field.now ≡ false)) }
{
    if !is_name(field) {
        return Err(LineKind::BadName);
    }
    match std::str::from_utf8(field) {
        Ok(name) => Ok(name),
        Err(_) => unreachable!(),
    }
}

fn are_digits(field: &[u8]) -> bool
    ensures { result ≡ list_all is_ascii_digit field.now }
{
    field.iter().all(|b| b.is_ascii_digit())
}

#[tactic(auto, unfolding(crate::specs::Fields::is_number), using(crate::proofs::FieldLemmas::number_test))]
fn is_number(field: &[u8]) -> bool
    ensures { result ≡ fields.is_number field.now }
{
    !field.is_empty() && field.len() <= MAX_DIGITS && are_digits(field)
}

/// The value of a field that is a number.
fn value_of(field: &[u8]) -> u64
    requires { fields.is_number field.now ≡ true }
    ensures { result ≡ digits_value 10 field.now }
{
    let mut value: u64 = 0;
    for byte in field {
        value = value * 10 + (*byte - b'0') as u64;
    }
    value
}

/// The value of a field that has to be a number.
pub(crate) fn number_of(field: &[u8]) -> Result<u64, LineKind>
    ensures { result ≡ judged ((not (fields.is_number field.now), LineKind.BadNumber) ∷ []) (digits_value 10 field.now) }
{
    if !is_number(field) {
        return Err(LineKind::BadNumber);
    }
    Ok(value_of(field))
}

/// The ceiling of a field that has to be one: a number, or `-` for none.
#[tactic(auto, unfolding(crate::specs::Fields::is_ceiling, crate::specs::Fields::ceiling_value))]
pub(crate) fn ceiling_of(field: &[u8]) -> Result<Option<u64>, LineKind>
    ensures { result ≡ judged ((not (fields.is_ceiling field.now), LineKind.BadNumber) ∷ []) (fields.ceiling_value field.now) }
{
    if field == b"-".as_slice() {
        return Ok(None);
    }
    let value = number_of(field)?;
    Ok(Some(value))
}

/// A number that is a cost or a demand.
pub(crate) fn amount_of(value: u64) -> Result<u32, LineKind>
    ensures { result ≡ judged ((nat_lt 1000000 value, LineKind.NumberTooLarge) ∷ []) value }
{
    if value > u64::from(MAX_NUMBER) {
        return Err(LineKind::NumberTooLarge);
    }
    Ok(value as u32)
}

/// A ceiling that may stand.
pub(crate) fn allowed(ceiling: Option<u64>) -> Result<Option<u32>, LineKind>
    ensures { result ≡ judged ((is_ceiling_too_large ceiling, LineKind.NumberTooLarge) ∷ []) ceiling }
{
    match ceiling {
        None => Ok(None),
        Some(value) => {
            if value > u64::from(MAX_CEILING) {
                return Err(LineKind::NumberTooLarge);
            }
            Ok(Some(value as u32))
        }
    }
}
