//! The fields of a line, taken from its front.

ghost use Rattle.std.specs.Prelude.{◌≡◌, ◌≢◌, ◌+◌, ◌-◌, ◌*◌, ◌<◌, ◌≤◌, ◌^◌, ◌↔◌, IsTrue, Some, None, length, slice_index, position, MatchOption, option_map, IfOk, IfSome, []};
ghost use Rattle.std.specs.Int.{IsInRange};
ghost use Rattle.npp_frac.specs.Wide.{value_of_wide};
ghost use Rattle.npp_cert_text.specs.Reading.{is_space, fields_of, ceiling_in, width_in, arc_ids, take_arcs};
ghost use Rattle.npp_cert_text.specs.Values.{whole_in, fraction_in};
ghost use Rattle.npp_cert_text.specs.Taking.{first_of, take_number, take_wide, take_fraction, take_numbers, all_numbers};
ghost use Rattle.npp_cert_text.specs.Said.{Reads, is_empty};

use npp_frac::{Exact, Frac128, parse_fraction};
use npp_net::{ArcId, Memory};
use std::alloc::Global;
use std::marker::Model;

/// The fields that are still to come.
#[derive(Drop)]
pub(crate) struct Fields<'l> {
    rest: Option<&'l [u8]>,
}

impl<'l> Model for Fields<'l> {
    ghost use Rattle.std.specs.Prelude.{List, ℕ, option_map};
    ghost use Rattle.npp_cert_text.specs.Said.{fields_left};

    ghost Value = { List (List ℕ) };

    ghost view = { λ f. fields_left (option_map (λ r. r.now) f.rest) };
}

impl<'l> Fields<'l> {
    /// The fields of a line.
    pub(crate) fn of(line: &'l [u8]) -> Fields<'l>
        ensures { result ≡ fields_of line.entry.now }
    {
        Fields { rest: Some(line) }
    }

    /// The next field.
    pub(crate) fn field(&mut self) -> Option<&'l [u8]>
        ensures { Reads (λ f. f.now) (first_of (λ f. Some f)) self.old result self.new }
    {
        let rest = self.rest?;
        match space(rest) {
            Some(end) => {
                self.rest = Some(&rest[end + 1..]);
                Some(&rest[..end])
            }
            None => {
                self.rest = None;
                Some(rest)
            }
        }
    }

    /// A whole number below `2^32`.
    pub(crate) fn number(&mut self) -> Option<u32>
        ensures { Reads (λ n. n) take_number self.old result self.new }
    {
        let field = self.field()?;
        number_of(field)
    }

    /// A whole number below `2^64`.
    pub(crate) fn wide(&mut self) -> Option<u64>
        ensures { Reads (λ n. n) take_wide self.old result self.new }
    {
        let field = self.field()?;
        wide_of(field)
    }

    /// Whether no field is left.
    pub(crate) fn is_empty(&self) -> bool
        ensures { result ≡ is_empty self.now }
    {
        self.rest.is_none()
    }

    /// All numbers that are left, where each field is one.
    pub(crate) fn numbers(&mut self, alloc: Global) -> Result<Option<Vec<u32>>, Memory>
        ensures all { IfOk result (λ found. option_map (λ v. v.items) found ≡ all_numbers self.old) }
        ensures end { IfOk result (λ found. IfSome found (λ _. self.new ≡ [])) }
    {
        let mut numbers = Vec::new(alloc);
        while !self.is_empty() {
            let Some(number) = self.number() else {
                return Ok(None);
            };
            numbers.push(number)?;
        }
        Ok(Some(numbers))
    }

    /// At least so many numbers, which are all that is left.
    pub(crate) fn some_numbers(
        &mut self,
        alloc: Global,
        least: usize,
    ) -> Result<Option<Vec<u32>>, Memory>
        ensures { IfOk result (λ found. Reads (λ v. v.items) (take_numbers least) self.old found self.new) }
    {
        let Some(numbers) = self.numbers(alloc)? else {
            return Ok(None);
        };
        if numbers.len() < least {
            return Ok(None);
        }
        Ok(Some(numbers))
    }

    /// At least one arc number, which are all that is left.
    #[tactic(auto, unfolding(crate::specs::Taking::and_then))]
    pub(crate) fn arcs(&mut self, alloc: Global) -> Result<Option<Vec<ArcId>>, Memory>
        ensures { IfOk result (λ found. Reads (λ v. v.items) take_arcs self.old found self.new) }
    {
        let Some(numbers) = self.some_numbers(alloc, 1)? else {
            return Ok(None);
        };
        Ok(Some(arcs_of(alloc, &numbers)?))
    }

    /// A dash for None, or a number.
    pub(crate) fn ceiling(&mut self) -> Option<Option<u32>>
        ensures { Reads (λ c. c) (first_of ceiling_in) self.old result self.new }
    {
        let field = self.field()?;
        ceiling_of(field)
    }

    /// A width that there is.
    pub(crate) fn width(&mut self) -> Option<u32>
        ensures { Reads (λ w. w) (first_of width_in) self.old result self.new }
    {
        let field = self.field()?;
        width_of(field)
    }

    /// A fraction.
    pub(crate) fn fraction(&mut self) -> Option<Frac128>
        ensures { Reads value_of_wide take_fraction self.old result self.new }
    {
        let field = self.field()?;
        fraction_of(field)
    }
}

/// Where the first space stands.
fn space(line: &[u8]) -> Option<usize>
    ensures { result ≡ position is_space line.now }
{
    line.iter().position(|b| *b == b' ')
}

/// The number below `2^32` that a field stands for.
fn number_of(field: &[u8]) -> Option<u32>
    ensures { result ≡ whole_in (2 ^ 32) field.now }
{
    match wide_of(field) {
        Some(number) if number < 1 << 32 => Some(number as u32),
        _ => None,
    }
}

/// The arcs of these numbers.
fn arcs_of(alloc: Global, numbers: &[u32]) -> Result<Vec<ArcId>, Memory>
    ensures { IfOk result (λ arcs. arcs.items ≡ arc_ids numbers.now) }
{
    let mut arcs = Vec::new(alloc);
    for number in numbers {
        arcs.push(ArcId(*number))?;
    }
    Ok(arcs)
}

/// The ceiling that a field stands for: a dash for None, or a number.
fn ceiling_of(field: &[u8]) -> Option<Option<u32>>
    ensures { result ≡ ceiling_in field.now }
{
    if field == b"-".as_slice() {
        return Some(None);
    }
    match number_of(field) {
        Some(number) => Some(Some(number)),
        None => None,
    }
}

/// The width that a field stands for.
fn width_of(field: &[u8]) -> Option<u32>
    ensures { result ≡ width_in field.now }
{
    match number_of(field) {
        Some(width) if width == 32 || width == 64 || width == 128 => Some(width),
        _ => None,
    }
}

/// The number below `2^64` that a field stands for: digits without leading zeros.
fn wide_of(field: &[u8]) -> Option<u64>
    ensures { result ≡ whole_in (2 ^ 64) field.now }
{
    if !is_plain(field) {
        return None;
    }
    let mut number = 0u64;
    for byte in field {
        number = with_digit(number, *byte)?;
    }
    Some(number)
}

/// Whether there is a byte, and no zero stands before others.
fn is_plain(field: &[u8]) -> bool
    ensures { IsTrue result ↔ ((0 < length field.now) × (1 < length field.now → slice_index field.now 0 ≢ 48)) }
{
    field.len() == 1 || (field.len() > 1 && field[0] != b'0')
}

/// The number with one more digit at its end, where the byte is a digit and the number stays below `2^64`.
fn with_digit(number: u64, byte: u8) -> Option<u64>
    ensures { MatchOption result
        (IsInRange 48 57 byte → 2 ^ 64 ≤ number * 10 + (byte - 48))
        (λ more. IsInRange 48 57 byte × (more ≡ number * 10 + (byte - 48)) × (more < 2 ^ 64)) }
{
    if !byte.is_ascii_digit() {
        return None;
    }
    number.checked_mul(10)?.checked_add(u64::from(byte - b'0'))
}

/// The fraction that a field stands for. A whole number that is not too large takes the short way.
fn fraction_of(field: &[u8]) -> Option<Frac128>
    ensures { MatchOption result (fraction_in field.now ≡ None) (λ f. fraction_in field.now ≡ Some (value_of_wide f)) }
{
    match wide_of(field) {
        Some(number) if number < 1 << 63 => Some(Frac128::of_whole(number as i64)),
        _ => long_fraction_of(field),
    }
}

/// The same, of whatever length.
fn long_fraction_of(field: &[u8]) -> Option<Frac128>
    ensures { MatchOption result (fraction_in field.now ≡ None) (λ f. fraction_in field.now ≡ Some (value_of_wide f)) }
{
    parse_fraction(field)
}
