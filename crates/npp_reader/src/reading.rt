//! Reading a text.

ghost use Rattle.std.specs.Prelude.{◌≡◌, ◌⊎◌, Err, length, IfOk, IfErr, OnOk};
ghost use Rattle.npp_net.specs.Network.{IsNetwork};
ghost use Rattle.npp_reader.specs.Declaring.{Declares};
ghost use Rattle.npp_reader.specs.Faults.{IsAccepted, IsRefused};
ghost use Rattle.npp_reader.specs.Names.{AreNames};
ghost use Rattle.npp_reader.specs.Reading.{reading_of};

use crate::document::Document;
use crate::draft::Draft;
use crate::line::split_line;
use crate::refusal::{Fault, ReadRefusal};
use std::alloc::Global;

/// The document that the bytes stand for, or their first faulty line and its first kind of fault.
///
/// The bytes are lines that end with a line feed, or with a carriage return and a line feed. The fields of a line are
/// divided by spaces and tabs. A line without fields, or whose first field begins with `#`, is skipped. The first other
/// line is `npp 1` or `npp 2`; the lines after it are `node NAME`, `free TAIL HEAD COST`, `toll TAIL HEAD COST` and
/// `pair ORIGIN DESTINATION DEMAND`, in any order that declares each name before it is used. Below `npp 2` the line of a
/// toll arc is `toll TAIL HEAD COST CEILING`, with a number or `-` for none.
pub fn read(alloc: Global, bytes: &[u8]) -> Result<Document, ReadRefusal>
    ensures answer { (result ≡ Err ReadRefusal.Memory) ⊎ (result ≡ reading_of bytes.now) }
    ensures accepted { OnOk result (IsAccepted bytes.now) }
    ensures refused { IfErr result (IsRefused bytes.now) }
    ensures declared { IfOk result (Declares bytes.now) }
    ensures limits { IfOk result (λ document. IsNetwork document.instance) }
    ensures names { IfOk result (λ document. AreNames document.names) }
    ensures count { IfOk result (λ document. length document.names ≡ document.instance.nodes) }
{
    let mut draft = Draft::new(alloc);
    let mut rest = bytes;
    let mut line: u64 = 1;
    while !rest.is_empty() {
        let (text, after) = split_line(rest);
        if let Err(fault) = draft.take(alloc, text) {
            return Err(fault.at(line));
        }
        rest = after;
        line += 1;
    }
    match draft.finish(alloc) {
        Ok(document) => Ok(document),
        Err(fault) => Err(fault.at(line)),
    }
}
