//! Worked examples.

ghost use Rattle.std.specs.Prelude.{◌≡◌, [], ◌∷◌, length, IfOk};

use crate::numbers::{Number, ratio, whole};
use npp_frac::{Exact, Frac32, Frac64, Memory, print_fraction};
use npp_lp::{
    DualFault, FarkasFault, PrimalFault, Program, ProgramBuilder, RowMultiplier, RunningSums,
    check_dual, check_farkas, check_primal, check_sparse_dual, check_sparse_farkas, coefficient_at,
};
use std::alloc::Global;
use std::test::Fail;

/// The list of one member.
fn single<T: Drop>(alloc: Global, member: T) -> Result<Vec<T>, Memory>
    ensures { IfOk result (λ v. v.items ≡ member ∷ []) }
{
    let mut list = Vec::new(alloc);
    list.reserve(1)?;
    list.push_reserved(member);
    Ok(list)
}

/// The greatest x at least 0 whose product with the coefficient is at most the right side.
fn one_row<N: Exact>(alloc: Global, coefficient: N, right: N) -> Result<Program<N>, Memory>
    ensures rows { IfOk result (λ p. length p.rows ≡ 1) }
    ensures columns { IfOk result (λ p. p.columns ≡ 1) }
{
    let goal = single(alloc, N::of_whole(1))?;
    let mut builder = ProgramBuilder::new(alloc, 1)?;
    builder.entry(0, coefficient)?;
    builder.end_row(right)?;
    Ok(builder.finish(goal))
}

/// The program of a coefficient and a right side.
fn of_wholes<N: Exact>(alloc: Global, row: (i64, i64)) -> Result<Program<N>, Fail>
    ensures rows { IfOk result (λ p. length p.rows ≡ 1) }
    ensures columns { IfOk result (λ p. p.columns ≡ 1) }
{
    let coefficient = whole(row.0).ok_or("no coefficient")?;
    let right = whole(row.1).ok_or("no right side")?;
    Ok(one_row(alloc, coefficient, right)?)
}

/// A value, or why multipliers are no dual answer.
fn dual_text<N: Exact>(alloc: Global, answer: Result<N, DualFault<N>>) -> Result<String, Memory> {
    match answer {
        Ok(value) => print_fraction(alloc, value),
        Err(DualFault::NegativeRow(row)) => Ok(format!(in alloc; "row {row}")?),
        Err(DualFault::Column(column)) => Ok(format!(in alloc; "column {column}")?),
        Err(DualFault::Overflow(overflow)) => {
            let left = print_fraction(alloc, overflow.left)?;
            let right = print_fraction(alloc, overflow.right)?;
            Ok(format!(in alloc; "{left} {:?} {right}", overflow.op)?)
        }
    }
}

/// What is said of a multiplier of the program of one row.
fn dual<N: Exact>(alloc: Global, row: (i64, i64), multiplier: Number) -> Result<String, Fail> {
    let program = of_wholes::<N>(alloc, row)?;
    let mut multipliers = Vec::new(alloc);
    multipliers.push(ratio(multiplier).ok_or("no multiplier")?)?;
    Ok(dual_text(alloc, check_dual(&program, &multipliers))?)
}

/// Multipliers of 1/2, 1/3 and -1 of the row of 2 and 3.
const DUALS: &[(Number, &str)] = &[((1, 2), "3/2"), ((1, 3), "column 0"), ((-1, 1), "row 0")];

/// The last product does not fit 32 bits.
#[test]
fn a_multiplier_bounds_the_goal(rt: HostRuntime) -> Result<(), Fail> {
    for (multiplier, want) in DUALS {
        let got = dual::<Frac64>(rt.alloc(), (2, 3), *multiplier)?;
        assert_eq!(rt; got.as_str(), *want);
    }
    let got = dual::<Frac32>(rt.alloc(), (65_536, 1), (65_536, 1))?;
    assert_eq!(rt; got.as_str(), "65536 Mul 65536");
    Ok(())
}

/// Why multipliers are no Farkas answer, by a name and a number.
fn farkas_fault<N: Exact>(answer: Result<(), FarkasFault<N>>) -> (&'static str, u32) {
    match answer {
        Ok(()) => ("none", 0),
        Err(FarkasFault::NegativeRow(row)) => ("row", row),
        Err(FarkasFault::Column(column)) => ("column", column),
        Err(FarkasFault::NotBelowZero) => ("not below zero", 0),
        Err(FarkasFault::Overflow(_)) => ("overflow", 0),
    }
}

#[test]
fn a_multiplier_shows_that_there_is_no_point(rt: HostRuntime) -> Result<(), Fail> {
    let program = of_wholes::<Frac64>(rt.alloc(), (1, -1))?;
    let got = [
        farkas_fault(check_farkas(&program, &[Frac64::of_whole(1)])),
        farkas_fault(check_farkas(&program, &[Frac64::of_whole(0)])),
    ];
    assert_eq!(rt; got, [("none", 0), ("not below zero", 0)]);
    Ok(())
}

/// A value, or the row that a point breaks.
fn primal(alloc: Global, number: Number) -> Result<String, Fail> {
    let program = of_wholes::<Frac64>(alloc, (2, 3))?;
    let number = ratio(number).ok_or("no number")?;
    match check_primal(&program, &[number]) {
        Ok(value) => Ok(print_fraction(alloc, value)?),
        Err(PrimalFault::Row(row)) => Ok(format!(in alloc; "row {row}")?),
        Err(_) => Err("another fault")?,
    }
}

#[test]
fn a_point_meets_each_row(rt: HostRuntime) -> Result<(), Fail> {
    let (most, more) = (primal(rt.alloc(), (3, 2))?, primal(rt.alloc(), (2, 1))?);
    assert_eq!(rt; [most.as_str(), more.as_str()], ["3/2", "row 0"]);
    Ok(())
}

#[test]
fn named_multipliers_answer_as_all_of_them(rt: HostRuntime) -> Result<(), Fail> {
    let alloc = rt.alloc();
    let program = of_wholes::<Frac64>(alloc, (2, 3))?;
    let mut sums = RunningSums::new(alloc, 1)?;
    let value = ratio((1, 2)).ok_or("no half")?;
    let named = [RowMultiplier { row: 0, value }];
    let half = dual_text(alloc, check_sparse_dual(&mut sums, &program, &named))?;
    let none = dual_text(alloc, check_sparse_dual(&mut sums, &program, &[]))?;
    assert_eq!(rt; [half.as_str(), none.as_str()], ["3/2", "column 0"]);
    let fault = farkas_fault(check_sparse_farkas(&mut sums, &program, &named));
    assert_eq!(rt; fault, ("not below zero", 0));
    Ok(())
}

#[test]
fn an_overflow_waits_for_its_column(rt: HostRuntime) -> Result<(), Fail> {
    let (large, one, minus) = (
        Frac32::of_whole(65_536),
        Frac32::of_whole(1),
        Frac32::of_whole(-1),
    );
    let mut sums = RunningSums::new(rt.alloc(), 2)?;
    assert_eq!(rt; sums.column_count(), 2);
    sums.add_entry(1, large, large);
    sums.add_entry(0, minus, large);
    sums.end_row(3, one, large);
    let first = farkas_fault(sums.judge_farkas());
    sums.add_entry(0, one, large);
    sums.end_row(5, one, minus);
    let second = farkas_fault(sums.judge_farkas());
    sums.clear();
    let right = sums.right().ok().map(|x| (x.num(), x.den()));
    assert_eq!(rt; right, Some((0, 1)));
    let faults = [first, second, farkas_fault(sums.judge_farkas())];
    assert_eq!(rt; faults, [("column", 0), ("row", 5), ("not below zero", 0)]);
    Ok(())
}

#[test]
fn zeros_leave_no_entry(rt: HostRuntime) -> Result<(), Fail> {
    let program = of_wholes::<Frac64>(rt.alloc(), (0, 3))?;
    assert_eq!(rt; program.row(0).len(), 0);
    let zero = coefficient_at(program.row(0), 0);
    assert_eq!(rt; (zero.num(), zero.den()), (0, 1));
    Ok(())
}
