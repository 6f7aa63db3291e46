//! The text of a certificate, taken by pieces of any length.

ghost use Rattle.std.specs.Prelude.{◌≡◌, ◌++◌, ◌∷◌, [], IfOk, IfErr, position};
ghost use Rattle.npp_cert_text.specs.Lines.{is_line_feed};
ghost use Rattle.npp_check.specs.Measures.{Measures};
ghost use Rattle.npp_check.specs.Start.{IsStartRefusal};
ghost use Rattle.npp_stream.specs.Stream.{HasBytes, HasNoLineFeed, TakesBytes, Ends};

use crate::lines::LineCheck;
use npp_cert_text::MAX_LINE;
use npp_check::{CheckRefusal, Rule, StartRefusal};
use npp_net::Instance;
use npp_tree::Pair;
use std::alloc::Global;

/// A check of a text that is under way: the check of its whole lines, and the bytes of the line that is still open.
#[derive(Drop)]
pub(crate) struct TextCheck<'a> {
    pub(crate) lines: LineCheck<'a>,
    pub(crate) open: Vec<u8>,
}

impl<'a> TextCheck<'a> {
    /// A check of a certificate for an instance, before its first byte.
    ///
    /// It takes the room for a line once, so no line takes room of its own.
    pub(crate) fn new(alloc: Global, instance: &'a Instance) -> Result<TextCheck<'a>, StartRefusal>
        ensures new { IfOk result (λ check. (f : Measures) × HasBytes instance.now f [] check) }
        ensures refused { IfErr result (IsStartRefusal instance.now) }
    {
        let lines = LineCheck::new(alloc, instance)?;
        match Vec::with_capacity(alloc, MAX_LINE) {
            Ok(open) => Ok(TextCheck { lines, open }),
            Err(_) => Err(StartRefusal::Memory),
        }
    }

    /// Takes the next bytes: judges each line that they end, and keeps those of the line that stays open.
    pub(crate) fn take(&mut self, piece: &[u8]) -> Result<(), CheckRefusal>
        ensures { TakesBytes self.old piece.now self.new result }
    {
        let mut rest = piece;
        while let Some(end) = line_feed(rest) {
            self.end_line(&rest[..end])?;
            rest = &rest[end + 1..];
        }
        self.go_on(rest)
    }

    /// The pair of both values, where the text ends here; or its first broken line.
    pub(crate) fn finish(self) -> Result<Pair, CheckRefusal>
        ensures { Ends self.entry result }
    {
        let TextCheck { lines, open } = self;
        if !open.is_empty() {
            return Err(CheckRefusal::Broken {
                line: lines.number,
                rule: Rule::Text,
            });
        }
        lines.finish()
    }

    /// Judges the open line with these bytes at its end, behind which its line feed came.
    ///
    /// Where the line lies whole in these bytes it is read there.
    fn end_line(&mut self, bytes: &[u8]) -> Result<(), CheckRefusal>
        requires { HasNoLineFeed bytes.now }
        ensures { TakesBytes self.old (bytes.now ++ 10 ∷ []) self.new result }
    {
        if self.open.is_empty() {
            return self.lines.judge(bytes);
        }
        self.go_on(bytes)?;
        self.lines.judge(&self.open)?;
        self.open.clear();
        Ok(())
    }

    /// Keeps these bytes of a line that stays open, unless it is too long with them.
    fn go_on(&mut self, bytes: &[u8]) -> Result<(), CheckRefusal>
        requires { HasNoLineFeed bytes.now }
        ensures { TakesBytes self.old bytes.now self.new result }
    {
        if MAX_LINE.saturating_sub(self.open.len()) < bytes.len() {
            return Err(CheckRefusal::Broken {
                line: self.lines.number,
                rule: Rule::Text,
            });
        }
        match self.open.extend_from_slice(bytes) {
            Ok(()) => Ok(()),
            Err(_) => Err(CheckRefusal::Memory),
        }
    }
}

/// Where the first line feed stands.
fn line_feed(bytes: &[u8]) -> Option<usize>
    ensures { result ≡ position is_line_feed bytes.now }
{
    bytes.iter().position(|b| *b == b'\n')
}
