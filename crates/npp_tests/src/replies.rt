//! Replies to tolls, and the best tolls of choices.

use npp_fixtures::{THREE_PAIRS, bent_cube, covers_of, instance_of, is_choice, write_numbers};
use npp_frac::{Exact, Frac32, Frac64, Frac128, parse_fraction, print_fraction};
use npp_inverse::{Best, RespondRefusal, Response, best_tolls, respond};
use npp_net::Tolls;
use std::alloc::Global;
use std::process::Abort;
use std::test::Fail;

/// Two parallel toll arcs beside a toll-free one.
const PARALLEL: &str = "npp 1\nnode a\nnode b\nfree a b 10\ntoll a b 2\ntoll a b 4\npair a b 1\n";

/// Two parallel toll arcs of one cost.
const TWINS: &str = "npp 1\nnode a\nnode b\nfree a b 10\ntoll a b 2\ntoll a b 2\npair a b 1\n";

/// Three toll arcs round a triangle, each pair of which has a toll-free way back.
const TRIANGLE: &str =
    "npp 1\nnode x\nnode y\nnode z\ntoll x y 0\ntoll y z 0\ntoll z x 0\nfree x z 1\nfree y x 1\nfree z y 1\npair x z 1\npair y x 1\npair z y 1\n";

/// A toll arc, and a cycle that costs nothing, of a toll arc and a toll-free one.
const CYCLE: &str =
    "npp 1\nnode a\nnode b\nnode c\nfree a b 10\ntoll a b 2\nfree a c 0\ntoll c a 0\npair a b 5\n";

/// Many travellers, whose payments do not fit 32 bits.
const MANY: &str = "npp 1\nnode a\nnode b\nfree a b 1000000\ntoll a b 0\npair a b 1000000\n";

/// Many travellers who pay nothing at best, where the reply to these tolls does not fit 32 bits.
const MANY_AT_ONE_PRICE: &str =
    "npp 1\nnode a\nnode b\nfree a b 3000\ntoll a b 0\npair a b 1000000\n";

/// A second commodity that has farther to go to the toll arc of the first.
const FARTHER: &str =
    "npp 1\nnode a\nnode b\nnode q\ntoll a b 2\nfree a b 10\nfree q a 1\npair a b 1\npair q b 1\n";

/// A reply as text: the revenue, what each commodity pays, and the paths.
fn response_text<N: Exact>(alloc: Global, response: &Response<N>) -> Result<String, Fail> {
    let mut text = format!(in alloc; "revenue {} paid", print_fraction(alloc, response.revenue)?)?;
    write_numbers(alloc, &mut text, response.paid.entries()).ok_or("no memory")?;
    write!(text, " paths {:?}", response.paths.entries())?;
    Ok(text)
}

/// Whole tolls.
fn whole_tolls<N: Exact>(alloc: Global, tolls: &[u16]) -> Result<Tolls<N>, Fail> {
    let mut values = Vec::new(alloc);
    for toll in tolls {
        values.push(N::of_whole(i64::from(*toll)))?;
    }
    Ok(Tolls::of(values))
}

/// The reply to tolls as text.
fn reply_text<N: Exact>(alloc: Global, text: &str, tolls: Tolls<N>) -> Result<String, Fail> {
    let net = instance_of(alloc, text)?;
    let covers = covers_of(alloc, &net)?;
    let covers = covers.as_slice();
    if tolls.values().len() != net.tolls() as usize {
        return Err("not a toll for each toll arc")?;
    }
    match respond(alloc, &net, covers, &tolls) {
        Ok(response) => response_text(alloc, &response),
        Err(RespondRefusal::Overflow { commodity }) => {
            Ok(format!(in alloc; "overflow {commodity}")?)
        }
        Err(RespondRefusal::Memory) => Err("no memory")?,
    }
}

/// The reply to whole tolls as text.
fn reply_to_whole<N: Exact>(alloc: Global, text: &str, tolls: &[u16]) -> Result<String, Fail> {
    reply_text::<N>(alloc, text, whole_tolls(alloc, tolls)?)
}

/// Networks with whole tolls and the replies.
const REPLIES: &[(&str, &[u16], &str)] = &[
    (PARALLEL, &[8, 5], "revenue 5 paid 5 paths [1]"),
    (PARALLEL, &[8, 6], "revenue 8 paid 8 paths [0]"),
    (PARALLEL, &[9, 7], "revenue 0 paid 0 paths [2]"),
    (PARALLEL, &[9, 6], "revenue 6 paid 6 paths [1]"),
    (TWINS, &[8, 8], "revenue 8 paid 8 paths [0]"),
    (CYCLE, &[8, 0], "revenue 40 paid 8 paths [0]"),
    (THREE_PAIRS, &[6], "revenue 12 paid 6 6 0 paths [0, 0, 1]"),
];

/// The cheapest path is taken; of equal prices the one that pays more; and of equal tolls the first.
#[test]
fn replies_take_the_least_price_and_then_the_most_toll(rt: HostRuntime) -> Result<(), Fail> {
    let alloc = rt.alloc();
    for (text, tolls, want) in REPLIES {
        let narrow = reply_to_whole::<Frac32>(alloc, text, tolls)?;
        let wide = reply_to_whole::<Frac128>(alloc, text, tolls)?;
        assert_eq!(rt; [narrow.as_str(), wide.as_str()], [*want; 2]);
    }
    Ok(())
}

/// The reply to one toll, which is written as a fraction.
fn reply_to_one(alloc: Global, text: &str, toll: &str) -> Result<String, Fail> {
    let toll = parse_fraction(toll.as_bytes()).ok_or("no fraction")?;
    reply_text(alloc, text, Tolls::of(vec![in alloc; toll]?))
}

/// The first commodity is named of which a sum or product does not fit.
#[test]
fn an_overflow_names_its_commodity(rt: HostRuntime) -> Result<(), Fail> {
    let alloc = rt.alloc();
    let second = reply_to_one(alloc, FARTHER, "170141183460469231731687303715884105725")?;
    let first = reply_to_one(alloc, FARTHER, "170141183460469231731687303715884105727")?;
    let paid = reply_to_whole::<Frac32>(alloc, MANY, &[2148])?;
    let got = [second.as_str(), first.as_str(), paid.as_str()];
    assert_eq!(rt; got, ["overflow 1", "overflow 0", "overflow 0"]);
    Ok(())
}

/// The best tolls of a choice as text.
fn best_text<N: Exact>(alloc: Global, text: &str, choice: &[u32]) -> Result<String, Fail> {
    let net = instance_of(alloc, text)?;
    let covers = covers_of(alloc, &net)?;
    let covers = covers.as_slice();
    if !is_choice(covers, choice) {
        return Err("no choice")?;
    }
    match best_tolls::<N>(alloc, &net, covers, choice)? {
        Best::Found {
            tolls,
            value,
            response,
            ..
        } => {
            let mut text = format!(in alloc; "value {} tolls", print_fraction(alloc, value)?)?;
            write_numbers(alloc, &mut text, tolls.values()).ok_or("no memory")?;
            write!(text, " {}", response_text(alloc, &response)?)?;
            Ok(text)
        }
        Best::NoTolls { .. } => Ok(format!(in alloc; "no tolls")?),
        Best::Loud(mark) => Ok(format!(in alloc; "{mark:?}")?),
    }
}

/// The best tolls of a choice at a width as text.
fn best_at(alloc: Global, width: u32, text: &str, choice: &[u32]) -> Result<String, Fail> {
    match width {
        32 => best_text::<Frac32>(alloc, text, choice),
        64 => best_text::<Frac64>(alloc, text, choice),
        _ => best_text::<Frac128>(alloc, text, choice),
    }
}

const WIDTHS: &[u32] = &[32, 64, 128];

/// Expects the best tolls of a choice at three widths.
fn expect_best(
    rt: &impl Abort,
    alloc: Global,
    text: &str,
    choice: &[u32],
    want: &str,
) -> Result<(), Fail> {
    for width in WIDTHS {
        let got = best_at(alloc, *width, text, choice)?;
        assert_eq!(rt; got.as_str(), want);
    }
    Ok(())
}

/// Networks with choices and their best tolls.
const BEST: &[(&str, &[u32], &str)] = &[
    (
        THREE_PAIRS,
        &[0, 0, 0],
        "value 15 tolls 3 revenue 15 paid 3 3 3 paths [0, 0, 0]",
    ),
    (THREE_PAIRS, &[1, 0, 0], "no tolls"),
    (
        PARALLEL,
        &[0],
        "value 8 tolls 8 6 revenue 8 paid 8 paths [0]",
    ),
    (
        TRIANGLE,
        &[0, 0, 0],
        "value 3 tolls 1/2 1/2 1/2 revenue 3 paid 1 1 1 paths [0, 0, 0]",
    ),
    (
        CYCLE,
        &[0],
        "value 40 tolls 8 0 revenue 40 paid 8 paths [0]",
    ),
];

#[test]
fn best_tolls_of_choices(rt: HostRuntime) -> Result<(), Fail> {
    for (text, choice, want) in BEST {
        expect_best(&rt, rt.alloc(), text, choice, want)?;
    }
    Ok(())
}

/// Two roads, the toll arc with this ceiling.
fn two_roads(alloc: Global, ceiling: &str) -> Result<String, Fail> {
    let text = format!(in alloc;
        "npp 2\nnode a\nnode b\nfree a b 10\ntoll a b 2 {ceiling}\npair a b 5\n"
    )?;
    Ok(text)
}

/// The most that two roads earn without a ceiling below 8.
const MOST: &str = "value 40 tolls 8 revenue 40 paid 8 paths [0]";

/// What the choice of the toll-free road gives there.
const BESIDE: &str = "value 0 tolls 8 revenue 40 paid 8 paths [0]";

/// Ceilings and paths of two roads with the best tolls.
const CEILINGS: &[(&str, u32, &str)] = &[
    ("-", 0, MOST),
    ("20", 0, MOST),
    ("3", 0, "value 15 tolls 3 revenue 15 paid 3 paths [0]"),
    ("0", 0, "value 0 tolls 0 revenue 0 paid 0 paths [0]"),
    ("-", 1, BESIDE),
    ("3", 1, "no tolls"),
    ("0", 1, "no tolls"),
];

/// Without a ceiling below 8 the toll rises to the difference of both roads, and up to it the toll-free road can be cheapest.
#[test]
fn best_tolls_within_ceilings(rt: HostRuntime) -> Result<(), Fail> {
    let alloc = rt.alloc();
    for (ceiling, path, want) in CEILINGS {
        let text = two_roads(alloc, ceiling)?;
        expect_best(&rt, alloc, text.as_str(), &[*path], want)?;
    }
    Ok(())
}

/// A toll-free arc of cost 200, and beside it 128 toll arcs of the costs from 0 on.
fn side_by_side(alloc: Global) -> Result<String, Fail> {
    let mut text = format!(in alloc; "npp 1\nnode a\nnode b\nfree a b 200\n")?;
    for cost in 0..128_u32 {
        writeln!(text, "toll a b {cost}")?;
    }
    text.push_str("pair a b 1\n")?;
    Ok(text)
}

/// The first arc earns 200 where each other costs as much with its toll, which the greatest toll of each just does.
#[test]
fn best_tolls_of_as_many_toll_arcs_as_there_may_be(rt: HostRuntime) -> Result<(), Fail> {
    let alloc = rt.alloc();
    let network = side_by_side(alloc)?;
    let mut want = format!(in alloc; "value 200 tolls")?;
    for cost in 0..128_u32 {
        write!(want, " {}", 200_u32.saturating_sub(cost))?;
    }
    want.push_str(" revenue 200 paid 200 paths [0]")?;
    expect_best(&rt, alloc, network.as_str(), &[0], want.as_str())
}

/// Widths, networks and choices with the marks, and with the best tolls where all fits. The first product of the run that does not
/// fit 32 bits is in the goal row, at the right side. Where the run and its check fit and the reply does not, the mark is that of a
/// sum.
const MARKS: &[(u32, &str, &[u32], &str)] = &[
    (
        32,
        MANY,
        &[0],
        "Overflow { pivot: 1, step: Pivot, row: 4, column: 5 }",
    ),
    (
        64,
        MANY,
        &[0],
        "value 1000000000000 tolls 1000000 revenue 1000000000000 paid 1000000 paths [0]",
    ),
    (32, MANY_AT_ONE_PRICE, &[1], "Sum"),
    (
        128,
        MANY_AT_ONE_PRICE,
        &[1],
        "value 0 tolls 3000 revenue 3000000000 paid 3000 paths [0]",
    ),
];

#[test]
fn a_loud_program_has_its_mark(rt: HostRuntime) -> Result<(), Fail> {
    for (width, text, choice, want) in MARKS {
        let got = best_at(rt.alloc(), *width, text, choice)?;
        assert_eq!(rt; got.as_str(), *want);
    }
    Ok(())
}

/// The run would take 150,072 pivots.
#[test]
fn a_loud_program_with_too_many_pivots(rt: HostRuntime) -> Result<(), Fail> {
    let alloc = rt.alloc();
    let network = bent_cube(alloc)?;
    let text = best_text::<Frac64>(alloc, network.as_str(), &[0; 48])?;
    assert_eq!(rt; text.as_str(), "Capped");
    Ok(())
}
