//! The lines of a text and the fields of a line.

ghost use Rattle.std.specs.Prelude.{◌≡◌, ◌≢◌, ◌<◌, ◌∷◌, [], not, length, position, MatchOption, IfSome};
ghost use Rattle.std.specs.Str.Lines.{strip_carriage_return};
ghost use Rattle.std.specs.Str as utf8;
ghost use Rattle.npp_reader.specs.Lines as text;
ghost use Rattle.npp_reader.specs.Lines.{lines_of, fields_of};

/// The first line of some bytes, without a carriage return at its end, and what stands behind its line feed.
pub(crate) fn split_line(bytes: &[u8]) -> (&[u8], &[u8])
    requires some { 0 < length bytes.now }
    ensures first { lines_of bytes.now ≡ result.0.now ∷ lines_of result.1.now }
    ensures shorter { length result.1.now < length bytes.now }
{
    match line_feed(bytes) {
        Some(end) => (without_carriage_return(&bytes[..end]), &bytes[end + 1..]),
        None => (without_carriage_return(bytes), &[]),
    }
}

/// Where the first line feed stands.
fn line_feed(bytes: &[u8]) -> Option<usize>
    ensures { result ≡ position text.is_line_feed bytes.now }
{
    bytes.iter().position(|b| *b == b'\n')
}

fn without_carriage_return(line: &[u8]) -> &[u8]
    ensures { result.now ≡ strip_carriage_return line.now }
{
    match line {
        [front @ .., b'\r'] => front,
        _ => line,
    }
}

/// Whether the line is UTF-8.
pub(crate) fn is_utf8(line: &[u8]) -> bool
    ensures { result ≡ utf8.is_utf8 line.now }
{
    match std::str::from_utf8(line) {
        Ok(_) => true,
        Err(_) => false,
    }
}

fn is_blank(byte: u8) -> bool
    ensures { result ≡ text.is_blank byte }
{
    byte == b' ' || byte == b'\t'
}

/// Where the first field begins.
fn field_start(line: &[u8]) -> Option<usize>
    ensures { result ≡ position (λ b. not (text.is_blank b)) line.now }
{
    line.iter().position(|b| !is_blank(*b))
}

/// Where the first blank stands.
fn blank(line: &[u8]) -> Option<usize>
    ensures { result ≡ position text.is_blank line.now }
{
    line.iter().position(|b| is_blank(*b))
}

/// The first field of a line, and what stands behind it, or None where there is no field.
pub(crate) fn next_field(line: &[u8]) -> Option<(&[u8], &[u8])>
    ensures fields { MatchOption result
        (fields_of line.now ≡ [])
        (λ r. fields_of line.now ≡ r.0.now ∷ fields_of r.1.now) }
    ensures some { IfSome result (λ r. 0 < length r.0.now) }
{
    let start = field_start(line)?;
    let rest = &line[start..];
    match blank(rest) {
        Some(end) => Some((&rest[..end], &rest[end..])),
        None => Some((rest, &[])),
    }
}

/// The field of a line that has exactly one.
pub(crate) fn one_field(line: &[u8]) -> Option<&[u8]>
    ensures { MatchOption result
        (length (fields_of line.now) ≢ 1)
        (λ field. fields_of line.now ≡ field.now ∷ []) }
{
    let (first, rest) = next_field(line)?;
    match next_field(rest) {
        Some(_) => None,
        None => Some(first),
    }
}

/// The fields of a line that has exactly three.
pub(crate) fn three_fields(line: &[u8]) -> Option<(&[u8], &[u8], &[u8])>
    ensures { MatchOption result
        (length (fields_of line.now) ≢ 3)
        (λ r. fields_of line.now ≡ r.0.now ∷ r.1.now ∷ r.2.now ∷ []) }
{
    let (first, rest) = next_field(line)?;
    let (second, rest) = next_field(rest)?;
    let third = one_field(rest)?;
    Some((first, second, third))
}

/// The fields of a line that has exactly four.
pub(crate) fn four_fields(line: &[u8]) -> Option<(&[u8], &[u8], &[u8], &[u8])>
    ensures { MatchOption result
        (length (fields_of line.now) ≢ 4)
        (λ r. fields_of line.now ≡ r.0.now ∷ r.1.now ∷ r.2.now ∷ r.3.now ∷ []) }
{
    let (first, rest) = next_field(line)?;
    let (second, third, fourth) = three_fields(rest)?;
    Some((first, second, third, fourth))
}
