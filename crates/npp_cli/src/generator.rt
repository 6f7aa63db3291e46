//! Generated instances: a main road of toll arcs beside a toll-free side road that is dearer, with ramps between them.
ghost use Rattle.std.specs.Prelude.{◌≡◌, ◌+◌, ◌<◌, ◌≤◌, ◌++◌, ◌∷◌, [], ℕ, IfOk, OnOk, flat_map, map, string_bytes};
ghost use Rattle.std.specs.Fmt.{decimal};
ghost use Rattle.npp_reader.specs.Canonical.{canonical_text};
ghost use Rattle.npp_reader.specs.Names.{texts};
ghost use Rattle.npp_cli.specs.Answer.{answer_text};
ghost use Rattle.npp_cli.specs.Answers.{AnswersNumber};
ghost use Rattle.npp_cli.specs.Generated.{spread, first_numbers, generated, generated_names, generated_arcs, generated_pairs, main_node, side_node, main_arc, side_arcs, ramp_arcs, side_pair, both_ways};

use crate::answers::Answer;
use npp_net::{Commodity, Instance, Memory, NetArc, NetRefusal, NodeId};
use npp_reader::{Document, Names, print};
use std::alloc::Global;

/// How many nodes each of the two roads has.
const NODES: u32 = 13;

/// The instance of a number, which is at most 999,999.
///
/// The nodes are `m0` to `m12` along the main road and `t0` to `t12` along the side road. Costs, ends and demands vary
/// with the number.
pub fn generate(alloc: Global, number: u32) -> Result<Document, Memory>
    requires { number ≤ 999999 }
    ensures { IfOk result (λ document. document ≡ generated number) }
{
    let names = Names::new(alloc, node_names(alloc)?)?;
    let arcs = network_arcs(alloc, number)?;
    let pairs = commodities(alloc, number)?;
    match Instance::new(alloc, 2 * NODES, arcs, pairs) {
        Ok(instance) => Ok(Document { names, instance }),
        Err(refusal) => match refusal {
            NetRefusal::Memory => Err(Memory),
            // It keeps all limits.
            _ => unreachable!(),
        },
    }
}

/// The canonical text of the instance of a number.
pub fn generated_text(alloc: Global, number: u32) -> Result<String, Memory>
    requires { number ≤ 999999 }
    ensures { IfOk result (λ text. string_bytes text ≡ canonical_text (generated number)) }
{
    let document = generate(alloc, number)?;
    print(alloc, &document)
}

/// The job `gen`: the canonical text of the instance of a number.
pub fn answer_on_number(alloc: Global, number: u32) -> Result<Answer, Memory>
    requires { number ≤ 999999 }
    ensures { IfOk result (λ answer. AnswersNumber number answer.status (answer_text answer)) }
{
    let text = generated_text(alloc, number)?;
    Ok(Answer::with_text(0, text))
}

// A number below `most`, which the instance's number and the place decide.
fn spread(number: u32, place: u32, most: u32) -> u32
    requires number { number ≤ 999999 }
    requires place { place ≤ 1000 }
    requires most { 0 < most }
    ensures value { result ≡ spread number place most }
    ensures below { result < most }
{
    (7 * number + 11 * place + place * place % 17) % most
}

fn main_node(i: u32) -> NodeId
    ensures { result ≡ main_node i }
{
    NodeId(i)
}

fn side_node(i: u32) -> NodeId
    requires { i ≤ 1000 }
    ensures { result ≡ side_node i }
{
    NodeId(NODES + i)
}

fn main_arc(number: u32, i: u32) -> NetArc
    requires number { number ≤ 999999 }
    requires place { i ≤ 100 }
    ensures { result ≡ main_arc number i }
{
    NetArc {
        tail: main_node(i),
        head: main_node(i + 1),
        cost: 3 + spread(number, i, 3),
        toll: true,
        ceiling: None,
    }
}

fn side_pair(number: u32, j: u32) -> Commodity
    requires number { number ≤ 999999 }
    requires place { j ≤ 100 }
    ensures { result ≡ side_pair number j }
{
    let start = spread(number, j + 200, 7);
    let end = start + 3 + spread(number, j + 300, 4);
    Commodity {
        origin: side_node(start),
        destination: side_node(end),
        demand: 1 + spread(number, j + 400, 20),
    }
}

fn node_names(alloc: Global) -> Result<Vec<String>, Memory>
    ensures { IfOk result (λ names. texts names.items ≡ generated_names) }
{
    let mut names = Vec::new(alloc);
    add_names(alloc, &mut names, "m")?;
    add_names(alloc, &mut names, "t")?;
    Ok(names)
}

fn add_names(alloc: Global, names: &mut Vec<String>, letter: &str) -> Result<(), Memory>
    ensures { OnOk result (texts names.new.items ≡ texts names.old.items ++ map (λ i. letter.now ++ decimal i) (first_numbers 13)) }
{
    for i in 0..NODES {
        names.push(format!(in alloc; "{letter}{i}")?)?;
    }
    Ok(())
}

fn network_arcs(alloc: Global, number: u32) -> Result<Vec<NetArc>, Memory>
    requires { number ≤ 999999 }
    ensures { IfOk result (λ arcs. arcs.items ≡ generated_arcs number) }
{
    let mut arcs = Vec::new(alloc);
    add_main_road(&mut arcs, number)?;
    add_side_road(&mut arcs, number)?;
    add_ramps(&mut arcs)?;
    Ok(arcs)
}

fn add_main_road(arcs: &mut Vec<NetArc>, number: u32) -> Result<(), Memory>
    requires { number ≤ 999999 }
    ensures { OnOk result (arcs.new.items ≡ arcs.old.items ++ map (main_arc number) (first_numbers 12)) }
{
    for i in 0..12 {
        arcs.push(main_arc(number, i))?;
    }
    Ok(())
}

fn add_side_road(arcs: &mut Vec<NetArc>, number: u32) -> Result<(), Memory>
    requires { number ≤ 999999 }
    ensures { OnOk result (arcs.new.items ≡ arcs.old.items ++ flat_map (side_arcs number) (first_numbers 12)) }
{
    for i in 0..12 {
        let cost = 11 + spread(number, i + 100, 4);
        add_both_ways(arcs, side_node(i), side_node(i + 1), cost)?;
    }
    Ok(())
}

fn add_ramps(arcs: &mut Vec<NetArc>) -> Result<(), Memory>
    ensures { OnOk result (arcs.new.items ≡ arcs.old.items ++ flat_map ramp_arcs (0 ∷ 3 ∷ 6 ∷ 9 ∷ 12 ∷ [])) }
{
    for i in [0, 3, 6, 9, 12] {
        add_both_ways(arcs, side_node(i), main_node(i), 5)?;
    }
    Ok(())
}

fn add_both_ways(arcs: &mut Vec<NetArc>, from: NodeId, to: NodeId, cost: u32) -> Result<(), Memory>
    ensures { OnOk result (arcs.new.items ≡ arcs.old.items ++ both_ways from to cost) }
{
    arcs.push(NetArc {
        tail: from,
        head: to,
        cost,
        toll: false,
        ceiling: None,
    })?;
    arcs.push(NetArc {
        tail: to,
        head: from,
        cost,
        toll: false,
        ceiling: None,
    })?;
    Ok(())
}

fn commodities(alloc: Global, number: u32) -> Result<Vec<Commodity>, Memory>
    requires { number ≤ 999999 }
    ensures { IfOk result (λ pairs. pairs.items ≡ generated_pairs number) }
{
    let mut pairs = Vec::new(alloc);
    for j in 0..10 {
        pairs.push(side_pair(number, j))?;
    }
    Ok(pairs)
}
