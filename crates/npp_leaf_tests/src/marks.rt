//! Nodes whose programs are not quiet at some width: each mark.

use crate::found::{Parts, expect, found};
use npp_fixtures::{THREE_PAIRS, bent_cube, cut, fraction};
use npp_frac::{Exact, Frac32, Frac64, Frac128, parse_fraction};
use npp_net::Listed;
use npp_rows::CutRow;
use std::alloc::Global;
use std::test::Fail;

/// Many travellers on a toll arc that costs nothing, beside a toll-free arc of cost 1,000,000.
const MANY: &str = "npp 1\nnode a\nnode b\nfree a b 1000000\ntoll a b 0\npair a b 1000000\n";

/// The same beside a toll-free arc of cost 3,000: at a toll of 3,000 both paths have one price.
const MANY_AT_ONE_PRICE: &str =
    "npp 1\nnode a\nnode b\nfree a b 3000\ntoll a b 0\npair a b 1000000\n";

/// Fewer travellers there.
const FEWER: &str = "npp 1\nnode a\nnode b\nfree a b 3000\ntoll a b 0\npair a b 1000\n";

/// Two commodities, each of which pays below 2^31, and both together above.
const TWO_ROADS: &str =
    "npp 1\nnode a\nnode b\nnode p\nnode q\ntoll a b 0\nfree a b 1000000\nfree p q 1000000\ntoll p q 0\npair a b 1600\npair p q 1600\n";

/// All paths of the three commodities.
const ALL: Parts<'static> = &[&[0, 1], &[0, 1], &[0, 1]];

/// What does not fit 32 bits fits 64 and 128.
#[test]
fn marks_at_32_bits(rt: HostRuntime) -> Result<(), Fail> {
    let alloc = rt.alloc();
    expect(
        &rt,
        alloc,
        MANY,
        &[&[0]],
        &[],
        "Overflow { pivot: 1, step: Pivot, row: 4, column: 5 }",
        "inverse 1000000000000 earns 1000000000000",
    )?;
    expect(
        &rt,
        alloc,
        MANY_AT_ONE_PRICE,
        &[&[1]],
        &[],
        "Sum",
        "inverse 0 earns 3000000000",
    )?;
    expect(
        &rt,
        alloc,
        TWO_ROADS,
        &[&[0, 1], &[0, 1]],
        &[],
        "Overflow { pivot: 7, step: Pivot, row: 17, column: 25 }",
        "dual 3200000000 at 1000000 1000000 | 1 0 | 1 0",
    )
}

/// A quotient of a ratio test, and the sums of multipliers that prove that there is no point.
#[test]
fn marks_by_cuts_at_32_bits(rt: HostRuntime) -> Result<(), Fail> {
    let alloc = rt.alloc();
    expect(
        &rt,
        alloc,
        THREE_PAIRS,
        ALL,
        &[(&[(0, 0, (1, 40_000))], (60_000, 1))],
        "Overflow { pivot: 4, step: Ratio, row: 22, column: 34 }",
        "dual 78/5 at 6 | 1 0 | 1 0 | 2/5 3/5",
    )?;
    expect(
        &rt,
        alloc,
        FEWER,
        &[&[0, 1]],
        &[
            (&[(0, 0, (2, 1))], (-40_000, 1)),
            (&[(0, 0, (-1_073_741_823, 1))], (-40_000, 1)),
        ],
        "Sum",
        "farkas empty",
    )
}

/// What is found with a cut by which the share of a path is at most 1, written with this number on both sides.
fn found_by_large<N: Exact>(alloc: Global, large: N) -> Result<String, Fail> {
    let mut terms = Vec::new(alloc);
    terms.push((0, 0, large))?;
    let mut cuts = Vec::new(alloc);
    cuts.push(cut(alloc, &terms, large)?)?;
    found(alloc, THREE_PAIRS, ALL, &cuts)
}

/// With the greatest number of a width in a cut, the program is not quiet there.
#[test]
fn an_overflow_at_each_width(rt: HostRuntime) -> Result<(), Fail> {
    let alloc = rt.alloc();
    let want = "Overflow { pivot: 1, step: Pivot, row: 22, column: 34 }";
    let at_32 = found_by_large(alloc, Frac32::of_whole(2_147_483_647))?;
    assert_eq!(rt; at_32.as_str(), want);
    let at_64 = found_by_large(alloc, Frac64::of_whole(9_223_372_036_854_775_807))?;
    assert_eq!(rt; at_64.as_str(), want);
    let large = parse_fraction(b"170141183460469231731687303715884105727").ok_or("no fraction")?;
    let at_128 = found_by_large(alloc, large)?;
    assert_eq!(rt; at_128.as_str(), want);
    Ok(())
}

/// What is found with so many cuts that say that 0 is at most 1.
fn found_by_many<N: Exact>(alloc: Global, count: u32) -> Result<String, Fail> {
    let mut cuts = Vec::new(alloc);
    for _ in 0..count {
        cuts.push(CutRow {
            terms: Listed::of(Vec::new(alloc)),
            right: N::of_whole(1),
        })?;
    }
    found(alloc, THREE_PAIRS, ALL, &cuts)
}

/// 22 rows and 99,979 cuts over 10 columns are too many.
#[test]
fn a_relaxation_with_too_many_cuts(rt: HostRuntime) -> Result<(), Fail> {
    let alloc = rt.alloc();
    assert_eq!(rt; found_by_many::<Frac32>(alloc, 99_979)?.as_str(), "Large");
    assert_eq!(rt; found_by_many::<Frac64>(alloc, 99_979)?.as_str(), "Large");
    assert_eq!(rt; found_by_many::<Frac128>(alloc, 99_979)?.as_str(), "Large");
    Ok(())
}

/// Twenty parallel toll arcs that twenty commodities share, each beside a toll-free arc of its own.
fn crossroads(alloc: Global) -> Result<String, Fail> {
    let mut text = format!(in alloc; "npp 1\nnode a\nnode b\n")?;
    for k in 0..20_u32 {
        writeln!(text, "node o{k}\nfree o{k} a 0\nfree o{k} b 100")?;
    }
    for cost in 0..20_u32 {
        writeln!(text, "toll a b {cost}")?;
    }
    for k in 0..20_u32 {
        writeln!(text, "pair o{k} b 1")?;
    }
    Ok(text)
}

/// 1,680 rows over 840 columns are too many without a cut.
#[test]
fn a_large_relaxation(rt: HostRuntime) -> Result<(), Fail> {
    let alloc = rt.alloc();
    let network = crossroads(alloc)?;
    let part: &[u32] = &[
        0, 1, 2, 3, 4, 5, 6, 7, 8, 9, 10, 11, 12, 13, 14, 15, 16, 17, 18, 19, 20,
    ];
    let parts = [part; 20];
    expect(&rt, alloc, network.as_str(), &parts, &[], "Large", "Large")
}

/// Three layers of toll arcs that cost nothing, by which there are 20 paths, beside a toll-free arc.
const LAYERS: &str =
    "npp 1\nnode s\nnode p\nnode q\nnode t\ntoll s p 0\ntoll s p 0\ntoll p q 0\ntoll p q 0\ntoll q t 0\ntoll q t 0\ntoll q t 0\ntoll q t 0\ntoll q t 0\nfree s t 1\npair s t 1\n";

/// Cuts by which the share of a path is at least that of the path before it, and both together are at most this number by 8,388,608;
/// the share of the last path counts 32 times less.
fn push_corner(
    alloc: Global,
    cuts: &mut Vec<CutRow<Frac64>>,
    path: u32,
    most: i32,
) -> Result<(), Fail> {
    let times = if path == 17 { 32 } else { 1 };
    let most = fraction::<Frac64>(most.saturating_mul(times), 4096).ok_or("no fraction")?;
    let part = fraction::<Frac64>(1, 2048).ok_or("no fraction")?;
    let most = most.mul(part).ok().ok_or("no fraction")?;
    let times = fraction::<Frac64>(times, 1).ok_or("no fraction")?;
    let (one, minus_one) = (Frac64::of_whole(1), Frac64::of_whole(-1));
    let Some(before) = path.checked_sub(1) else {
        cuts.push(cut(alloc, &[(0, path, one)], most)?)?;
        return Ok(());
    };
    let at_least = [(0, before, times), (0, path, minus_one)];
    cuts.push(cut(alloc, &at_least, Frac64::of_whole(0))?)?;
    let at_most = [(0, before, times), (0, path, one)];
    cuts.push(cut(alloc, &at_most, most)?)?;
    Ok(())
}

/// What is found with the cuts of 18 paths of the layers. Their shares have a corner for each subset, in a cube that is bent as that
/// of Klee and Minty: the run goes through a great part of its corners.
fn found_in_cube(alloc: Global) -> Result<String, Fail> {
    let mut cuts = Vec::new(alloc);
    let mut most = 0_i32;
    for path in 0..18_u32 {
        most = most.saturating_mul(2).saturating_add(1);
        push_corner(alloc, &mut cuts, path, most)?;
    }
    let part: &[u32] = &[
        0, 1, 2, 3, 4, 5, 6, 7, 8, 9, 10, 11, 12, 13, 14, 15, 16, 17, 20,
    ];
    found(alloc, LAYERS, &[part], &cuts)
}

/// The run would take 132,291 pivots.
#[test]
fn too_many_pivots_with_cuts(rt: HostRuntime) -> Result<(), Fail> {
    let text = found_in_cube(rt.alloc())?;
    assert_eq!(rt; text.as_str(), "Capped");
    Ok(())
}

/// The run of the inverse program would take 150,072 pivots.
#[test]
fn too_many_pivots_of_a_full_choice(rt: HostRuntime) -> Result<(), Fail> {
    let alloc = rt.alloc();
    let network = bent_cube(alloc)?;
    let first: &[u32] = &[0];
    let text = found::<Frac64>(alloc, network.as_str(), &[first; 48], &[])?;
    assert_eq!(rt; text.as_str(), "Capped");
    Ok(())
}
