//! An instance with the least costs of its walks, by which a certificate is judged.

ghost use Rattle.std.specs.Prelude.{◌≡◌, ◌<◌, IfOk, IfErr, length, true, map, option_map};
ghost use Rattle.npp_net.specs.Network.{IsNetwork};
ghost use Rattle.npp_net.specs.Distance.{IsSpan};
ghost use Rattle.npp_short.specs.Reach.{cost_at};
ghost use Rattle.npp_short.specs.Potentials.{AreDistances};
ghost use Rattle.npp_cover.specs.Useful.{commodity_at};
ghost use Rattle.npp_check.specs.Measures.{AreMeasures, AreAllOnward, span_of, onward_of};
ghost use Rattle.npp_check.specs.Start.{IsStartRefusal};

use crate::refusal::StartRefusal;
use npp_bounds::{BoundsRefusal, free_and_zero};
use npp_net::{Instance, Memory, Span};
use npp_short::{Potentials, distances_to};
use std::alloc::Global;
use std::marker::Model;

/// An instance with the spans of its commodities, and for each commodity the least costs to its destination.
#[derive(Drop)]
pub struct Measured<'a> {
    instance: &'a Instance,
    spans: Vec<Span>,
    potentials: Vec<Potentials>,
}

impl<'a> Model for Measured<'a> {
    ghost use Rattle.std.specs.Prelude.{map, option_map};
    ghost use Rattle.npp_check.specs.Measures.{AreMeasures};
    ghost use Rattle.npp_check.specs.Stages.{Case};

    ghost Value = { Case };

    ghost view = { λ m. record {
      net = m.instance.now;
      measures = record { spans = m.spans.items; onward = map (λ table. map (option_map (λ r. r.cost)) table) m.potentials.items };
    } };

    ghost invariant = { λ m. AreMeasures m.instance.now (record {
      spans = m.spans.items;
      onward = map (λ table. map (option_map (λ r. r.cost)) table) m.potentials.items;
    }) };
}

impl<'a> Measured<'a> {
    /// The instance with its measures, or the first commodity without a toll-free walk.
    pub fn new(alloc: Global, instance: &'a Instance) -> Result<Measured<'a>, StartRefusal>
        ensures instance { IfOk result (λ m. m.net ≡ instance.now) }
        ensures refused { IfErr result (λ e. IsStartRefusal instance.now e) }
    {
        let spans = match free_and_zero(alloc, instance) {
            Ok(spans) => spans,
            Err(BoundsRefusal::NoFreePath(k)) => return Err(StartRefusal::NoFreePath(k)),
            Err(BoundsRefusal::Memory) => return Err(StartRefusal::Memory),
        };
        match onward(alloc, instance) {
            Ok(potentials) => Ok(Measured {
                instance,
                spans,
                potentials,
            }),
            Err(_) => Err(StartRefusal::Memory),
        }
    }

    /// The instance.
    pub fn instance(&self) -> &Instance
        ensures instance { result.now ≡ self.now.net }
        ensures limits { IsNetwork self.now.net }
        ensures measures { AreMeasures self.now.net self.now.measures }
    {
        let _nodes = self.instance.nodes();
        self.instance
    }

    /// The least costs of a commodity, without toll arcs and with them.
    pub fn span(&self, k: u32) -> Span
        requires { k < length self.now.net.commodities }
        ensures value { result ≡ span_of self.now.measures k }
        ensures span { IsSpan self.now.net.arcs (commodity_at self.now.net k) result }
    {
        self.spans[k as usize]
    }

    /// The least costs to the destination of a commodity.
    pub fn potentials(&self, k: u32) -> &Potentials
        requires { k < length self.now.net.commodities }
        ensures distances { AreDistances self.now.net.arcs true self.now.net.nodes (commodity_at self.now.net k).destination.0 result.now }
        ensures costs { cost_at result.now ≡ onward_of self.now.measures k }
    {
        &self.potentials[k as usize]
    }
}

/// For each commodity the least costs to its destination, with tolls at zero.
fn onward(alloc: Global, instance: &Instance) -> Result<Vec<Potentials>, Memory>
    ensures { IfOk result (λ v. AreAllOnward instance.now.arcs instance.now.nodes instance.now.commodities (map (λ table. map (option_map (λ r. r.cost)) table) v.items)) }
{
    let mut tables = Vec::new(alloc);
    for commodity in instance.commodities() {
        tables.push(distances_to(alloc, instance, commodity.destination, true)?)?;
    }
    Ok(tables)
}
