//! The checker, which takes a certificate line by line.

ghost use Rattle.std.specs.Prelude.{◌≡◌, List, [], map, Ok, Err, All, IfOk, MatchResult, IfErr};
ghost use Rattle.npp_frac.specs.Rational.{Rational};
ghost use Rattle.npp_tree.specs.declared.item.Item.{Item};
ghost use Rattle.npp_frac.specs.Fits.{limit_of};
ghost use Rattle.npp_tree.specs.Items.{item_of, items_of, HasShortLists};
ghost use Rattle.npp_check.specs.Verdict.{IsVerdict, pair_value};
ghost use Rattle.npp_check.specs.Yes.{Proves};
ghost use Rattle.npp_check.specs.Checking.{IsNew, HasTaken, Takes, Refuses, IsEndRefusal, verdict_with};
ghost use Rattle.npp_check.specs.Steps.{refusal_at};
ghost use Rattle.npp_check.specs.StageValue.{pair_of};
ghost use Rattle.npp_check.specs.Start.{IsStartRefusal, IsCheckedRefusal};

use crate::descent::Descent;
use crate::measured::Measured;
use crate::refusal::{CheckRefusal, CheckedRefusal, Rule, StartRefusal};
use crate::stage::Stage;
use crate::step::step;
use crate::stop::Stop;
use npp_frac::Exact;
use npp_net::Instance;
use npp_tree::{Item, Pair};
use std::alloc::Global;
use std::marker::Model;
use std::mem;

/// A check of a certificate that is under way. It holds what the lines above leave to be known, and no finished node of
/// the tree.
#[derive(Drop)]
pub struct Checker<'a, N: Exact> {
    alloc: Global,
    measured: Measured<'a>,
    number: u64,
    stage: Stage<N>,
    refused: Option<CheckRefusal>,
}

impl<'a, N: Exact> Model for Checker<'a, N> {
    ghost use Rattle.npp_check.specs.Checking.{Checking};
    ghost use Rattle.npp_check.specs.StageValue.{stage_value};
    ghost use Rattle.npp_check.specs.Steps.{IsStageOf};

    ghost Value = { Checking };

    ghost view = { λ c. record {
      on = c.measured;
      number = c.number;
      stage = stage_value N.rational c.measured.net c.stage;
      refused = c.refused;
    } };

    ghost invariant = { λ c. IsStageOf c.measured (stage_value N.rational c.measured.net c.stage) };
}

impl<'a, N: Exact> Checker<'a, N> {
    /// A checker for an instance, or the first commodity without a toll-free walk.
    pub fn new(alloc: Global, instance: &'a Instance) -> Result<Checker<'a, N>, StartRefusal>
        ensures new { IfOk result (λ c. IsNew (limit_of N.WIDTH) instance.now c) }
        ensures refused { IfErr result (λ e. IsStartRefusal instance.now e) }
    {
        let measured = Measured::new(alloc, instance)?;
        let _net = measured.instance();
        Ok(Checker {
            alloc,
            measured,
            number: 1,
            stage: Stage::Header,
            refused: None,
        })
    }

    /// Takes the item of the next line, or says which rule it breaks.
    ///
    /// After a refusal the checker has failed: every later call answers the same refusal. Where the number of a line
    /// would pass 2^64 the answer is Memory.
    pub fn feed(&mut self, item: Item<N>) -> Result<(), CheckRefusal>
        requires { HasShortLists item }
        ensures { MatchResult result
            (λ _. Takes (limit_of N.WIDTH) self.old (item_of N.rational item) self.new)
            (λ e. Refuses (limit_of N.WIDTH) self.old (item_of N.rational item) e self.new) }
    {
        if let Some(refusal) = self.refused {
            return Err(refusal);
        }
        let stage = mem::replace(&mut self.stage, Stage::Header);
        let stop = match step(self.alloc, &self.measured, stage, item) {
            Ok(stage) if self.number < u64::MAX => {
                self.stage = stage;
                self.number += 1;
                return Ok(());
            }
            Ok(_) => Stop::Memory,
            Err(stop) => stop,
        };
        let refusal = refusal_at(self.number, stop);
        self.refused = Some(refusal);
        Err(refusal)
    }

    /// The pair of both values; or what was refused before, or that the next line is missing.
    ///
    /// A pair proves that the tolls and walks of the items that were taken are an outcome that earns the lower value, and
    /// that no outcome earns more than the upper value, whoever wrote the items.
    pub fn finish(self) -> Result<Pair, CheckRefusal>
        ensures verdict { MatchResult result
            (λ p. verdict_with (limit_of N.WIDTH) self.entry [] ≡ Ok (pair_value p))
            (λ e. verdict_with (limit_of N.WIDTH) self.entry [] ≡ Err e) }
        ensures cause { IfErr result (IsEndRefusal self.entry.refused self.entry) }
        ensures proves { IfOk result (λ p. (items : List (Item Rational)) → HasTaken (limit_of N.WIDTH) self.entry items → Proves self.entry.on.net items (pair_value p)) }
    {
        let _net = self.measured.instance();
        if let Some(refusal) = self.refused {
            return Err(refusal);
        }
        match &self.stage {
            Stage::Behind(tree) => Ok(pair_of(tree)),
            _ => Err(CheckRefusal::Broken {
                line: self.number,
                rule: Rule::Order,
            }),
        }
    }
}

/// Both values that the head above a tree says.
fn pair_of<N: Exact>(tree: &Descent<N>) -> Pair
    ensures { pair_value result ≡ pair_of N.rational tree.now.known.head }
{
    let head = tree.known.head;
    Pair {
        lower: head.lower.widen(),
        upper: head.upper.widen(),
    }
}

/// Why the line of this number is refused.
fn refusal_at(number: u64, stop: Stop) -> CheckRefusal
    ensures { result ≡ refusal_at number stop }
{
    match stop {
        Stop::Broken(rule) => CheckRefusal::Broken { line: number, rule },
        Stop::Memory => CheckRefusal::Memory,
    }
}

/// The pair of both values, or the first broken line of these items.
///
/// A pair proves that the tolls and walks of the items are an outcome that earns the lower value, and that no outcome
/// earns more than the upper value, whoever wrote the items.
pub fn check<N: Exact>(
    alloc: Global,
    instance: &Instance,
    items: Vec<Item<N>>,
) -> Result<Pair, CheckedRefusal>
    requires { All HasShortLists items.items }
    ensures verdict { IfOk result (λ p. IsVerdict (limit_of N.WIDTH) instance.now (items_of N.rational items.items) (Ok (pair_value p))) }
    ensures refused { IfErr result (λ e. IsCheckedRefusal (limit_of N.WIDTH) instance.now (items_of N.rational items.items) e) }
    ensures proves { IfOk result (λ p. Proves instance.now (items_of N.rational items.items) (pair_value p)) }
{
    let _nodes = instance.nodes();
    let mut checker = match Checker::new(alloc, instance) {
        Ok(checker) => checker,
        Err(refusal) => return Err(CheckedRefusal::Start(refusal)),
    };
    for item in items {
        if let Err(refusal) = checker.feed(item) {
            return Err(CheckedRefusal::Check(refusal));
        }
    }
    match checker.finish() {
        Ok(pair) => Ok(pair),
        Err(refusal) => Err(CheckedRefusal::Check(refusal)),
    }
}
