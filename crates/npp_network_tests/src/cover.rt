//! Drafts on small networks, with their covers and their faults.

ghost use Rattle.std.specs.Prelude.{◌<◌, IfOk, IfSome};
ghost use Rattle.npp_net.specs.Distance.{IsSpan};

use crate::network::{DETOUR, cover_text, instance_of};
use npp_cover::{Cover, CoverDraft, CoverFault, GrowingDraft, StepDraft, check_cover};
use npp_net::{ArcId, Commodity, Instance, Memory, Span, Walk};
use npp_short::distances_to;
use std::alloc::{AllocError, Global};
use std::test::Fail;

/// A draft whose steps are given each by its parent and its arc.
fn draft_of(
    alloc: Global,
    started: bool,
    steps: &[(u32, u32)],
    free: &[ArcId],
) -> Result<CoverDraft, AllocError> {
    let mut list = Vec::new(alloc);
    for (parent, arc) in steps {
        list.push(StepDraft {
            parent: *parent,
            arc: ArcId(*arc),
        })?;
    }
    let arcs = Vec::from_slice(alloc, free)?;
    Ok(CoverDraft {
        started,
        steps: list,
        free: Walk { arcs },
    })
}

/// The span of a commodity, if it has a toll-free walk.
fn span_of(alloc: Global, instance: &Instance, pair: Commodity) -> Result<Option<Span>, Memory>
    requires origin { pair.origin.0 < instance.now.nodes }
    requires destination { pair.destination.0 < instance.now.nodes }
    ensures { IfOk result (λ o. IfSome o (IsSpan instance.now.arcs pair)) }
{
    let without = distances_to(alloc, instance, pair.destination, false)?;
    let with_tolls = distances_to(alloc, instance, pair.destination, true)?;
    match without.at(pair.origin) {
        None => Ok(None),
        Some(free) => Ok(with_tolls.at(pair.origin).map(|zero| Span { free, zero })),
    }
}

/// The cost of a toll-free walk, and the numbers of the sets of the labels.
fn sets_text(alloc: Global, cover: &Cover) -> Result<String, AllocError> {
    let mut text = format!(in alloc; "free at {}, sets", cover.free_cost())?;
    for label in cover.labels() {
        write!(text, " {}", label.tolls.number())?;
    }
    Ok(text)
}

/// What is said of the cover of a draft for the first commodity, or its fault.
fn judged(alloc: Global, instance: &Instance, draft: CoverDraft) -> Result<String, Fail> {
    let pair = instance.commodities()[0];
    let potentials = distances_to(alloc, instance, pair.destination, true)?;
    let span = span_of(alloc, instance, pair)?.ok_or("no toll-free walk")?;
    match check_cover(alloc, instance, 0, span, &potentials, draft) {
        Ok(cover) => {
            let sets = sets_text(alloc, &cover)?;
            Ok(format!(in alloc; "{sets}, {}", cover_text(alloc, &cover)?)?)
        }
        Err(fault) => Ok(format!(in alloc; "{fault:?}")?),
    }
}

/// A draft by its network, whether it has a start, its steps and its toll-free walk.
type DraftRow<'a> = (&'a str, bool, &'a [(u32, u32)], &'a [ArcId]);

/// A loop with a toll on the way.
const LOOP: &str = "npp 1\nnode 0\nnode 1\nfree 0 1 10\ntoll 0 0 0\ntoll 0 1 1\npair 0 1 1\n";

/// Three toll arcs side by side, two of one cost.
const PARALLEL: &str =
    "npp 1\nnode 0\nnode 1\nfree 0 1 10\ntoll 0 1 3\ntoll 0 1 3\ntoll 0 1 2\npair 0 1 1\n";

/// Two toll-free arcs to node 1, of which the first is dearer and so not needed, and a toll arc on from there.
const NOT_NEEDED: &str =
    "npp 1\nnode 0\nnode 1\nnode 2\nfree 0 2 10\nfree 0 1 2\nfree 0 1 1\ntoll 1 2 1\npair 0 2 1\n";

/// The toll-free walk by the first arc.
const DIRECT: &[ArcId] = &[ArcId(0)];

const DRAFTS: &[(DraftRow<'static>, &str)] = &[
    (
        (DETOUR, true, &[(0, 1), (1, 2)], DIRECT),
        "free at 10, sets 0 1 1, 3 labels, 1 at 2 by [ArcId(1), ArcId(2)], 0 at 10 by [ArcId(0)]",
    ),
    ((DETOUR, false, &[], DIRECT), "MissingOrigin"),
    ((DETOUR, true, &[(0, 1)], DIRECT), "NotClosed(1, ArcId(2))"),
    ((DETOUR, false, &[(0, 1)], DIRECT), "NotAStep(0)"),
    ((DETOUR, true, &[(1, 1)], DIRECT), "NotAStep(1)"),
    ((DETOUR, true, &[(0, 4)], DIRECT), "NotAStep(1)"),
    ((DETOUR, true, &[(0, 2)], DIRECT), "NotAStep(1)"),
    ((DETOUR, true, &[(0, 0)], DIRECT), "Useless(1)"),
    ((DETOUR, true, &[], &[ArcId(1), ArcId(2)]), "BadFree"),
    ((LOOP, true, &[(0, 1), (1, 1)], DIRECT), "RepeatedToll(2)"),
    (
        (PARALLEL, true, &[(0, 2), (0, 1), (0, 3)], DIRECT),
        "free at 10, sets 0 2 1 4, 4 labels, 4 at 2 by [ArcId(3)], 1 at 3 by [ArcId(1)], 2 at 3 by [ArcId(2)], 0 at 10 by [ArcId(0)]",
    ),
    ((NOT_NEEDED, true, &[], DIRECT), "NotClosed(0, ArcId(1))"),
    (
        (NOT_NEEDED, true, &[(0, 2), (1, 3)], DIRECT),
        "free at 10, sets 0 0 1, 3 labels, 1 at 2 by [ArcId(2), ArcId(3)], 0 at 10 by [ArcId(0)]",
    ),
];

#[test]
fn drafts_are_judged(rt: HostRuntime) -> Result<(), Fail> {
    let alloc = rt.alloc();
    for ((text, started, steps, free), want) in DRAFTS {
        let net = instance_of(alloc, text)?;
        let draft = draft_of(alloc, *started, steps, free)?;
        let got = judged(alloc, &net, draft)?;
        assert_eq!(rt; got.as_str(), *want);
    }
    Ok(())
}

/// The start counts as a label.
const COUNTS: &[(bool, usize, &str)] = &[
    (true, 65_535, "NotClosed(1, ArcId(2))"),
    (true, 65_536, "TooManyLabels"),
    (false, 65_536, "NotAStep(0)"),
];

#[test]
fn labels_are_counted_first(rt: HostRuntime) -> Result<(), Fail> {
    let alloc = rt.alloc();
    let net = instance_of(alloc, DETOUR)?;
    for (started, count, want) in COUNTS {
        let steps = vec![in alloc; (0, 1); *count]?;
        let draft = draft_of(alloc, *started, &steps, DIRECT)?;
        let got = judged(alloc, &net, draft)?;
        assert_eq!(rt; got.as_str(), *want);
    }
    Ok(())
}

fn step(parent: u32, arc: u32) -> StepDraft {
    StepDraft {
        parent,
        arc: ArcId(arc),
    }
}

/// Each fault is answered at once, and leaves the draft as it was.
#[test]
fn a_draft_grows_label_by_label(rt: HostRuntime) -> Result<(), Fail> {
    let alloc = rt.alloc();
    let net = instance_of(alloc, DETOUR)?;
    let pair = net.commodities()[0];
    let potentials = distances_to(alloc, &net, pair.destination, true)?;
    let span = span_of(alloc, &net, pair)?.ok_or("no toll-free walk")?;
    let mut draft = GrowingDraft::new(alloc, 0, span);
    let early = draft.step(&net, &potentials, step(0, 1));
    draft.start(&net, &potentials)?;
    let answers = [
        early,
        draft.step(&net, &potentials, step(0, 0)),
        draft.step(&net, &potentials, step(0, 1)),
        draft.step(&net, &potentials, step(2, 2)),
        draft.step(&net, &potentials, step(1, 2)),
    ];
    let want = [
        Err(CoverFault::NotAStep(0)),
        Err(CoverFault::Useless(1)),
        Ok(()),
        Err(CoverFault::NotAStep(2)),
        Ok(()),
    ];
    assert_eq!(rt; answers, want);
    let arcs = Vec::from_slice(alloc, DIRECT)?;
    let cover = draft.close(alloc, &net, &potentials, Walk { arcs })?;
    assert_eq!(rt; (cover.labels().len(), cover.paths().len()), (3, 2));
    Ok(())
}
