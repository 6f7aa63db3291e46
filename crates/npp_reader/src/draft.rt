//! What the lines above a line declare.

ghost use Rattle.std.specs.Prelude.{◌≡◌, ◌≤◌, ℕ, List, ◌∷◌, length, Ok, Err, OnOk, IfOk, IfErr};
ghost use Rattle.npp_net.specs.Network.{IsNetwork};
ghost use Rattle.npp_reader.specs.Lines.{fields_of};
ghost use Rattle.npp_reader.specs.Names.{AreNames};
ghost use Rattle.npp_reader.specs.Grammar.{nothing, after_line, after_fields, after_header, after_node, after_arc, after_pair, after_word};
ghost use Rattle.npp_reader.specs.Reading.{at_end};
ghost use Rattle.npp_reader.specs.Taking.{IfKind, IsWithin};

use crate::document::Document;
use crate::field::name_of;
use crate::format::{Format, asks_ceiling, format_named};
use crate::kind::LineKind;
use crate::line::{is_utf8, next_field, one_field};
use crate::link::{Link, link_of};
use crate::names::Names;
use crate::refusal::Fault;
use npp_net::{
    Commodity, Instance, MAX_ARCS, MAX_COMMODITIES, MAX_NODES, MAX_TOLLS, NetArc, NetRefusal,
};
use std::alloc::Global;
use std::marker::Model;

/// What the lines so far declare.
#[derive(Drop)]
pub(crate) struct Draft {
    format: Option<Format>,
    names: Names,
    arcs: Vec<NetArc>,
    tolls: usize,
    commodities: Vec<Commodity>,
}

impl Model for Draft {
    ghost use Rattle.std.specs.Prelude.{◌≡◌};
    ghost use Rattle.npp_net.specs.Network.{toll_count};
    ghost use Rattle.npp_reader.specs.Grammar.{Declared};

    ghost Value = { Declared };

    ghost view = { λ d. record { format = d.format; names = d.names; arcs = d.arcs.items; commodities = d.commodities.items } };

    ghost invariant = { λ d. d.tolls ≡ toll_count d.arcs.items };
}

impl Draft {
    /// Nothing is declared.
    pub(crate) fn new(alloc: Global) -> Draft
        ensures { result ≡ nothing }
    {
        Draft {
            format: None,
            names: Names::empty(alloc),
            arcs: Vec::new(alloc),
            tolls: 0,
            commodities: Vec::new(alloc),
        }
    }

    /// Takes the next line.
    pub(crate) fn take(&mut self, alloc: Global, line: &[u8]) -> Result<(), Fault>
        requires few { length self.old.names ≤ 1000 }
        ensures taken { OnOk result (after_line self.old line.now ≡ Ok self.new) }
        ensures fault { IfErr result (IfKind (λ kind. after_line self.old line.now ≡ Err kind)) }
    {
        if !is_utf8(line) {
            return Err(Fault::Kind(LineKind::Utf8));
        }
        let Some((word, rest)) = next_field(line) else {
            return Ok(());
        };
        if word[0] == b'#' {
            return Ok(());
        }
        if self.format.is_some() {
            self.take_word(alloc, word, rest)
        } else {
            self.take_header(word, rest)
        }
    }

    #[tactic(auto, unfolding(crate::specs::Grammar::after_header))]
    fn take_header(&mut self, word: &[u8], rest: &[u8]) -> Result<(), Fault>
        ensures taken { OnOk result (after_header self.old (word.now ∷ fields_of rest.now) ≡ Ok self.new) }
        ensures fault { IfErr result (IfKind (λ kind. after_header self.old (word.now ∷ fields_of rest.now) ≡ Err kind)) }
    {
        match format_named(word, rest) {
            None => Err(Fault::Kind(LineKind::Header)),
            Some(format) => {
                self.format = Some(format);
                Ok(())
            }
        }
    }

    #[tactic(auto, unfolding(crate::specs::Grammar::after_word))]
    fn take_word(&mut self, alloc: Global, word: &[u8], rest: &[u8]) -> Result<(), Fault>
        requires few { length self.old.names ≤ 1000 }
        ensures taken { OnOk result (after_word self.old word.now (fields_of rest.now) ≡ Ok self.new) }
        ensures fault { IfErr result (IfKind (λ kind. after_word self.old word.now (fields_of rest.now) ≡ Err kind)) }
    {
        if word == b"node".as_slice() {
            return self.take_node(alloc, rest);
        }
        if word == b"free".as_slice() {
            let link = link_of(&self.names, rest, false)?;
            return self.take_arc(false, link);
        }
        if word == b"toll".as_slice() {
            let link = link_of(&self.names, rest, asks_ceiling(self.format))?;
            return self.take_arc(true, link);
        }
        if word == b"pair".as_slice() {
            let link = link_of(&self.names, rest, false)?;
            return self.take_pair(link);
        }
        Err(Fault::Kind(LineKind::UnknownWord))
    }

    #[tactic(auto, unfolding(crate::specs::Grammar::after_node))]
    fn take_node(&mut self, alloc: Global, rest: &[u8]) -> Result<(), Fault>
        requires few { length self.old.names ≤ 1000 }
        ensures taken { OnOk result (after_node self.old (fields_of rest.now) ≡ Ok self.new) }
        ensures fault { IfErr result (IfKind (λ kind. after_node self.old (fields_of rest.now) ≡ Err kind)) }
    {
        let Some(field) = one_field(rest) else {
            return Err(Fault::Kind(LineKind::FieldCount));
        };
        let name = name_of(field)?;
        if self.names.find(name).is_some() {
            return Err(Fault::Kind(LineKind::RepeatedNode));
        }
        if self.names.len() >= MAX_NODES as usize {
            return Err(Fault::Kind(LineKind::TooManyNodes));
        }
        self.names.push(alloc, name)?;
        Ok(())
    }

    #[tactic(auto, unfolding(crate::specs::Grammar::after_arc))]
    fn take_arc(&mut self, toll: bool, link: Link) -> Result<(), Fault>
        ensures taken { OnOk result (after_arc self.old toll link ≡ Ok self.new) }
        ensures fault { IfErr result (IfKind (λ kind. after_arc self.old toll link ≡ Err kind)) }
    {
        if self.arcs.len() >= MAX_ARCS {
            return Err(Fault::Kind(LineKind::TooManyArcs));
        }
        if toll && self.tolls >= MAX_TOLLS {
            return Err(Fault::Kind(LineKind::TooManyTolls));
        }
        self.arcs.push(NetArc {
            tail: link.from,
            head: link.to,
            cost: link.number,
            toll,
            ceiling: link.ceiling,
        })?;
        if toll {
            self.tolls += 1;
        }
        Ok(())
    }

    #[tactic(auto, unfolding(crate::specs::Grammar::after_pair))]
    fn take_pair(&mut self, link: Link) -> Result<(), Fault>
        ensures taken { OnOk result (after_pair self.old link ≡ Ok self.new) }
        ensures fault { IfErr result (IfKind (λ kind. after_pair self.old link ≡ Err kind)) }
    {
        if link.from.0 == link.to.0 {
            return Err(Fault::Kind(LineKind::SameEnds));
        }
        if link.number == 0 {
            return Err(Fault::Kind(LineKind::ZeroDemand));
        }
        if self.commodities.len() >= MAX_COMMODITIES {
            return Err(Fault::Kind(LineKind::TooManyCommodities));
        }
        self.commodities.push(Commodity {
            origin: link.from,
            destination: link.to,
            demand: link.number,
        })?;
        Ok(())
    }

    /// The document that is declared, where the text ends here.
    #[tactic(auto, unfolding(crate::specs::Reading::at_end))]
    pub(crate) fn finish(self, alloc: Global) -> Result<Document, Fault>
        requires within { IsWithin self }
        ensures document { IfOk result (λ document. at_end self ≡ Ok document) }
        ensures limits { IfOk result (λ document. IsNetwork document.instance) }
        ensures names { IfOk result (λ document. AreNames document.names) }
        ensures count { IfOk result (λ document. length document.names ≡ document.instance.nodes) }
        ensures fault { IfErr result (IfKind (λ kind. at_end self ≡ Err kind)) }
    {
        let Draft {
            format,
            names,
            arcs,
            commodities,
            tolls: _,
        } = self;
        if format.is_none() {
            return Err(Fault::Kind(LineKind::Header));
        }
        if commodities.is_empty() {
            return Err(Fault::Kind(LineKind::NoCommodity));
        }
        match Instance::new(alloc, names.len() as u32, arcs, commodities) {
            Ok(instance) => Ok(Document { names, instance }),
            Err(refusal) => match refusal {
                NetRefusal::Memory => Err(Fault::Memory),
                _ => unreachable!(),
            },
        }
    }
}
