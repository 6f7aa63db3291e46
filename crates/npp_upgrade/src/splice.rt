//! The bytes of a certificate in the second form.

ghost use Rattle.std.specs.Prelude.{◌≡◌, ◌<◌, ◌≤◌, ◌++◌, IfOk, OnOk, IfSome, length, position};
ghost use Rattle.npp_net.specs.Network.{IsNetwork};
ghost use Rattle.npp_cert_text.specs.Lines.{is_line_feed};
ghost use Rattle.npp_upgrade.specs.Splice.{line_end, lines_end, named_text, second_form};

use crate::instance::write_instance;
use npp_net::{Instance, Memory};
use std::alloc::Global;

/// The first line of the first form.
const FIRST: &[u8] = b"npp-certificate 1\n";

/// The first line of the second form.
const SECOND: &[u8] = b"npp-certificate 2\n";

/// How many lines stand between the first one and those that name the instance.
const BETWEEN: u32 = 5;

/// At most so many bytes has the line of the sizes, and so many that of a ceiling.
const ROOM: usize = 32;

/// The bytes with the first line of the second form, and with the lines that name the instance behind the five that follow;
/// bytes that do not begin with the line of the first form stay.
pub(crate) fn second_form(
    alloc: Global,
    instance: &Instance,
    bytes: &[u8],
) -> Result<Vec<u8>, Memory>
    ensures text { IfOk result (λ text. text.items ≡ second_form instance.now bytes.now) }
    ensures limits { IsNetwork instance.now }
{
    let room = ROOM * (instance.tolls() as usize + 1);
    let mut text = Vec::with_capacity(alloc, bytes.len() + room)?;
    if !bytes.starts_with(FIRST) {
        text.extend_from_slice(bytes)?;
        return Ok(text);
    }
    write_named(alloc, &mut text, instance, &bytes[FIRST.len()..])?;
    Ok(text)
}

/// The first line of the second form and these bytes, in which the lines that name the instance stand behind the fifth line.
fn write_named(
    alloc: Global,
    text: &mut Vec<u8>,
    instance: &Instance,
    rest: &[u8],
) -> Result<(), Memory>
    ensures { OnOk result (text.new.items ≡ text.old.items ++ named_text instance.now rest.now) }
{
    let end = lines_end(rest, BETWEEN);
    text.extend_from_slice(SECOND)?;
    text.extend_from_slice(&rest[..end])?;
    write_instance(alloc, text, instance)?;
    text.extend_from_slice(&rest[end..])?;
    Ok(())
}

/// How many bytes the first lines have, so many of them.
fn lines_end(bytes: &[u8], count: u32) -> usize
    ensures end { result ≡ lines_end count bytes.now }
    ensures within { result ≤ length bytes.now }
{
    let mut end = 0;
    for _ in 0..count {
        end += line_end(&bytes[end..]);
    }
    end
}

/// How many bytes the first line has, with its line feed.
fn line_end(bytes: &[u8]) -> usize
    ensures end { result ≡ line_end bytes.now }
    ensures within { result ≤ length bytes.now }
{
    match line_feed(bytes) {
        Some(place) => place + 1,
        None => bytes.len(),
    }
}

/// Where the first line feed stands.
fn line_feed(bytes: &[u8]) -> Option<usize>
    ensures place { result ≡ position is_line_feed bytes.now }
    ensures within { IfSome result (λ place. place < length bytes.now) }
{
    bytes.iter().position(|b| *b == b'\n')
}
