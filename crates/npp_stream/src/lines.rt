//! Whole lines of a certificate, judged one by one.

ghost use Rattle.std.specs.Prelude.{◌≡◌, ◌+◌, [], Err, IfOk, IfErr, MatchResult};
ghost use Rattle.npp_frac.specs.Fits.{limit_of};
ghost use Rattle.npp_check.specs.Checking.{IsNew, verdict_with};
ghost use Rattle.npp_check.specs.Start.{IsStartRefusal};
ghost use Rattle.npp_check.specs.Verdict.{pair_value};
ghost use Rattle.npp_stream.specs.Stream.{TakesLine, RefusesLine, ProvesPair};

use npp_cert_text::read_line;
use npp_check::{CheckRefusal, Checker, Rule, StartRefusal};
use npp_frac::Frac128;
use npp_net::Instance;
use npp_tree::Pair;
use std::alloc::Global;

/// The checker of what the lines say, and the number of the next line.
#[derive(Drop)]
pub(crate) struct LineCheck<'a> {
    alloc: Global,
    pub(crate) checker: Checker<'a, Frac128>,
    pub(crate) number: u64,
}

impl<'a> LineCheck<'a> {
    /// A check of the lines of a certificate for an instance, or the first commodity without a toll-free walk.
    pub(crate) fn new(alloc: Global, instance: &'a Instance) -> Result<LineCheck<'a>, StartRefusal>
        ensures new { IfOk result (λ lines. IsNew (limit_of 128) instance.now lines.checker) }
        ensures first { IfOk result (λ lines. lines.number ≡ 1) }
        ensures refused { IfErr result (λ e. IsStartRefusal instance.now e) }
    {
        let checker = Checker::new(alloc, instance)?;
        Ok(LineCheck {
            alloc,
            checker,
            number: 1,
        })
    }

    /// Judges the next line, without its line feed. Where its number would pass 2^64 the answer is Memory.
    pub(crate) fn judge(&mut self, line: &[u8]) -> Result<(), CheckRefusal>
        ensures { MatchResult result
            (λ _. TakesLine (limit_of 128) self.old.checker line.now self.new.checker × (self.new.number ≡ self.old.number + 1))
            (λ e. RefusesLine (limit_of 128) self.old.checker self.old.number line.now e) }
    {
        let item = match read_line(self.alloc, line) {
            Ok(Some(item)) => item,
            Ok(None) => {
                return Err(CheckRefusal::Broken {
                    line: self.number,
                    rule: Rule::Text,
                });
            }
            Err(_) => return Err(CheckRefusal::Memory),
        };
        self.checker.feed(item)?;
        if self.number == u64::MAX {
            return Err(CheckRefusal::Memory);
        }
        self.number += 1;
        Ok(())
    }

    /// The pair of both values, where no line comes any more; or that the next line is missing, or what was refused.
    pub(crate) fn finish(self) -> Result<Pair, CheckRefusal>
        ensures { MatchResult result (λ p. ProvesPair (limit_of 128) self.entry.checker (pair_value p)) (λ e. verdict_with (limit_of 128) self.entry.checker [] ≡ Err e) }
    {
        let LineCheck {
            alloc: _,
            checker,
            number: _,
        } = self;
        checker.finish()
    }
}
