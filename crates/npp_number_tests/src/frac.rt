//! Worked examples.

ghost use Rattle.std.specs.Prelude.{◌≢◌, ◌<ℤ◌, pos};

use npp_frac::{Exact, Frac32, Frac64, Frac128, Op, apply_at_both, parse_fraction, print_fraction};
use std::alloc::Global;
use std::cmp::Ordering;
use std::test::Fail;

/// The numerator and the denominator.
fn parts<N: Exact>(value: N) -> (i128, i128) {
    (value.num(), value.den())
}

/// The numbers of -1/3 at two widths, its sum and product with 1/2, its difference from 1/2 and its
/// floor; and its order to 1/2.
fn worked<N: Exact>() -> Option<([(i128, i128); 6], Ordering)> {
    let one = N::of_whole(1);
    let Ok(half) = one.div(N::of_whole(2)) else {
        return None;
    };
    let Ok(third) = one.div(N::of_whole(-3)) else {
        return None;
    };
    let (Ok(sum), Ok(difference), Ok(product)) = (half.add(third), half.sub(third), half.mul(third))
    else {
        return None;
    };
    let numbers = [
        parts(third),
        parts(third.widen()),
        parts(sum),
        parts(difference),
        parts(product),
        parts(third.floor()),
    ];
    Some((numbers, third.cmp(half)))
}

#[test]
fn works_at_each_width(rt: HostRuntime) {
    let numbers = [(-1, 3), (-1, 3), (1, 6), (5, 6), (-1, 6), (-1, 1)];
    let want = Some((numbers, Ordering::Less));
    let got = [worked::<Frac32>(), worked::<Frac64>(), worked::<Frac128>()];
    assert_eq!(rt; got, [want; 3]);
}

/// The operation on 1 over a denominator and on a number over a denominator, at 32 bits and at 128.
fn at_two_widths(op: Op, left: i64, right: (i64, i64)) -> Option<[Option<(i128, i128)>; 2]>
    requires op { op ≢ Op.Div }
    requires left { (pos 0 <ℤ left) × (left <ℤ pos 100000) }
    requires number { (pos 0 <ℤ right.0) × (right.0 <ℤ pos 100000) }
    requires right { (pos 0 <ℤ right.1) × (right.1 <ℤ pos 100000) }
{
    let (Ok(left), Ok(right)) = (
        Frac32::of_whole(1).div(Frac32::of_whole(left)),
        Frac32::of_whole(right.0).div(Frac32::of_whole(right.1)),
    ) else {
        return None;
    };
    let (narrow, wide) = apply_at_both(op, (left, right), (left.widen(), right.widen()));
    Some([narrow.ok().map(parts), wide.ok().map(parts)])
}

#[test]
fn refuses_by_the_rule(rt: HostRuntime) {
    let got = [
        at_two_widths(Op::Mul, 2, (2, 3)),
        at_two_widths(Op::Add, 65536, (1, 65535)),
    ];
    let want = [
        Some([Some((1, 3)), Some((1, 3))]),
        Some([None, Some((131_071, 4_294_901_760))]),
    ];
    assert_eq!(rt; got, want);
    let (most, one) = (Frac32::of_whole(2_147_483_647), Frac32::of_whole(1));
    let refused = most.add(one).err();
    let told = refused.map(|x| (x.op, parts(x.left), parts(x.right)));
    assert_eq!(rt; told, Some((Op::Add, (2_147_483_647, 1), (1, 1))));
}

/// Two fractions by their texts, and their order.
const ORDERS: &[(&str, &str, Ordering)] = &[
    (
        "170141183460469231731687303715884105727/170141183460469231731687303715884105726",
        "170141183460469231731687303715884105726/170141183460469231731687303715884105725",
        Ordering::Less,
    ),
    ("-1/3", "-1/2", Ordering::Greater),
    ("-5", "0", Ordering::Less),
];

/// The order of two fractions, where both texts are taken.
fn order(left: &str, right: &str) -> Option<Ordering> {
    let left = parse_fraction(left.as_bytes())?;
    let right = parse_fraction(right.as_bytes())?;
    Some(left.cmp(right))
}

#[test]
fn compares_long_fractions(rt: HostRuntime) {
    for (left, right, want) in ORDERS {
        assert_eq!(rt; order(left, right), Some(*want));
    }
}

/// Texts that are read, and printed as they stand.
const PRINTED: &[&str] = &[
    "0",
    "8",
    "-1/3",
    "170141183460469231731687303715884105727",
    "-1/170141183460469231731687303715884105727",
];

/// Texts that are no fractions, or not as they are printed.
const REFUSED: &[&str] = &[
    "16/2",
    "-0",
    "01",
    "3/1",
    "",
    "-",
    "+1",
    "1/",
    "/2",
    "0/2",
    "1/-3",
    "1/03",
    "170141183460469231731687303715884105728",
];

/// What is printed of the fraction of a text.
fn printed(alloc: Global, text: &str) -> Result<String, Fail> {
    let value = parse_fraction(text.as_bytes()).ok_or("no fraction")?;
    Ok(print_fraction(alloc, value)?)
}

#[test]
fn reads_what_it_prints(rt: HostRuntime) -> Result<(), Fail> {
    for text in PRINTED {
        let again = printed(rt.alloc(), text)?;
        assert_eq!(rt; again.as_str(), *text);
    }
    for text in REFUSED {
        assert!(rt;
            parse_fraction(text.as_bytes()).is_none(),
            "{text} is taken"
        );
    }
    Ok(())
}
