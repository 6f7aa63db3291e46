//! Worked examples.

ghost use Rattle.std.specs.Prelude.{◌≡◌, [], length, OnOk};

use crate::numbers::{Number, ratio, whole};
use npp_frac::{Exact, Frac32, Frac64, Frac128, Memory, print_fraction};
use npp_lp::{Program, ProgramBuilder};
use npp_simplex::{Answer, Workspace, solve, solve_in};
use std::alloc::Global;
use std::test::Fail;

/// Writes a row with a coefficient for each column.
fn write_row<N: Exact>(
    builder: &mut ProgramBuilder<N>,
    columns: u32,
    coefficients: &[N],
    right: N,
) -> Result<(), Memory>
    requires columns { builder.old.columns ≡ columns }
    requires size { length coefficients.now ≡ columns }
    requires begins { builder.old.next ≡ 0 }
    ensures columns { OnOk result (builder.new.columns ≡ columns) }
    ensures begins { OnOk result (builder.new.next ≡ 0) }
    ensures ended { OnOk result (builder.new.entries ≡ []) }
{
    for column in 0..columns {
        builder.entry(column, coefficients[column as usize])?;
    }
    builder.end_row(right)
}

/// Whole numbers at a width. None where memory is wanting, or one does not fit.
fn wholes<N: Exact>(alloc: Global, numbers: &[i64]) -> Option<Vec<N>> {
    let mut list = Vec::new(alloc);
    for number in numbers {
        list.push(whole(*number)?).ok()?;
    }
    Some(list)
}

/// A row by its coefficients and its right side.
type Row = (&'static [i64], Number);

/// The program with these rows and this goal. A row has a coefficient for each column, and its right side.
fn program<N: Exact>(
    alloc: Global,
    rows: &[Row],
    goal: &[i64],
) -> Result<Option<Program<N>>, Memory> {
    let goal = wholes::<N>(alloc, goal).ok_or(Memory)?;
    let Ok(columns) = u32::try_from(goal.len()) else {
        return Ok(None);
    };
    let mut builder = ProgramBuilder::new(alloc, columns)?;
    for i in 0..rows.len() {
        let (coefficients, right) = rows[i];
        let coefficients = wholes::<N>(alloc, coefficients).ok_or(Memory)?;
        if coefficients.len() != goal.len() {
            return Ok(None);
        }
        let right = ratio(right).ok_or(Memory)?;
        write_row(&mut builder, columns, &coefficients, right)?;
    }
    Ok(Some(builder.finish(goal)))
}

/// Writes numbers behind a text, with a space before each.
fn write_numbers<N: Exact>(alloc: Global, text: &mut String, numbers: &[N]) -> Result<(), Memory> {
    for number in numbers {
        write!(text, " {}", print_fraction(alloc, *number)?)?;
    }
    Ok(())
}

/// An answer as text: a point and its value, or multipliers or a ray and the pivots, or why there is none.
fn text_of<N: Exact>(alloc: Global, answer: &Answer<N>) -> Result<String, Memory> {
    let mut text = String::new(alloc);
    match answer {
        Answer::Optimal { x, value, .. } => {
            write!(text, "value {} at", print_fraction(alloc, *value)?)?;
            write_numbers(alloc, &mut text, x)?;
        }
        Answer::Infeasible { y, pivots } => {
            write!(text, "{pivots} pivots, none by")?;
            write_numbers(alloc, &mut text, y)?;
        }
        Answer::Unbounded { ray, pivots } => {
            write!(text, "{pivots} pivots, rises along")?;
            write_numbers(alloc, &mut text, ray)?;
        }
        Answer::Capped => text.push_str("capped")?,
        Answer::Overflow { pivot, place } => write!(text, "pivot {pivot}, {place:?}")?,
    }
    Ok(text)
}

/// What the run answers, with at most so many pivots.
fn answer<N: Exact>(alloc: Global, question: Question) -> Result<String, Memory> {
    let (rows, goal, cap, _) = question;
    match program::<N>(alloc, rows, goal)? {
        Some(program) => text_of(alloc, &solve(alloc, &program, cap)?),
        None => Err(Memory),
    }
}

/// What the run answers in a workspace, with at most so many pivots.
fn answer_in<N: Exact>(
    alloc: Global,
    workspace: &mut Workspace<N>,
    question: Question,
) -> Result<String, Memory> {
    let (rows, goal, cap, _) = question;
    match program::<N>(alloc, rows, goal)? {
        Some(program) => text_of(alloc, &solve_in(alloc, workspace, &program, cap)?),
        None => Err(Memory),
    }
}

/// A program by its rows and its goal, with the most pivots and the answer.
type Question = (&'static [Row], &'static [i64], u32, &'static str);

/// The rows of a program that does not fit 64 bits.
const BEYOND_A_WORD: &[Row] = &[
    (&[2_692_914_182_930, -9, 9], (5, 1)),
    (&[0, 0, 7], (2, 1)),
    (&[4, 1, 1], (3, 1)),
];

/// Programs at 64 bits.
const WIDE: &[Question] = &[
    (&[(&[1], (1, 1))], &[1], 1, "value 1 at 1"),
    (
        &[(&[1, 1], (1, 1)), (&[1, 0], (1, 1))],
        &[1, 1],
        9,
        "value 1 at 1 0",
    ),
    // The first pivot changes no value.
    (
        &[(&[1, -1], (0, 1)), (&[1, 0], (1, 1)), (&[0, 1], (1, 1))],
        &[1, 1],
        9,
        "value 2 at 1 1",
    ),
    // At least 2 and at most 3, as little as can be.
    (
        &[(&[1], (3, 1)), (&[-1], (-2, 1))],
        &[-1],
        9,
        "value -2 at 2",
    ),
    // At least 0 and at most -1: the extra variable enters, and nothing makes it smaller.
    (&[(&[1], (-1, 1))], &[1], 9, "1 pivots, none by 1"),
    // At least 2 and at most 1: phase one makes the extra variable smaller before it ends.
    (
        &[(&[1], (1, 1)), (&[-1], (-2, 1))],
        &[1],
        9,
        "2 pivots, none by 1/2 1/2",
    ),
    (&[(&[-1], (0, 1))], &[1], 9, "0 pivots, rises along 1"),
    (&[(&[1], (1, 1))], &[1], 0, "capped"),
    // A row whose common denominator outgrows the width is kept as fractions, and comes back.
    (
        &[(&[1, 0], (9, 1)), (&[3_513_199_346_326, 1], (8, 1))],
        &[2, 2],
        9,
        "value 16 at 0 8",
    ),
    // Rows that are kept as fractions, up to the first place that does not fit.
    (
        BEYOND_A_WORD,
        &[5, 2, 9],
        9,
        "pivot 2, Place { step: Pivot, row: 0, column: 2 }",
    ),
    (
        &[
            (&[0, 1, 1], (752_244_611_838, 1)),
            (&[2_584_149_301_103, 0, 1], (739_894_479_766, 1)),
            (&[-9, 2_082_053_620_927, 1], (1, 1)),
        ],
        &[6, 3, 4],
        9,
        "pivot 2, Place { step: Ratio, row: 2, column: 7 }",
    ),
];

/// The first quotient of a replacement where only one row can leave, and the first of a ratio test.
const NARROW: &[Question] = &[
    (
        &[(&[65_536], (1, 65_536))],
        &[1],
        9,
        "pivot 1, Place { step: Pivot, row: 0, column: 3 }",
    ),
    (
        &[(&[65_536], (1, 65_536)), (&[1], (1, 1))],
        &[1],
        9,
        "pivot 1, Place { step: Ratio, row: 0, column: 4 }",
    ),
    // A row whose common denominator outgrows the width is kept as fractions, and comes back.
    (
        &[
            (&[80_878, 1], (7, 1)),
            (&[4, 1], (317_797, 1)),
            (&[0, -9], (3, 1)),
        ],
        &[1, 5],
        9,
        "value 35 at 0 7",
    ),
    // Rows that are kept as fractions, up to the first place that does not fit.
    (
        &[(&[1, 9], (1, 1)), (&[748_024, 1], (4, 1))],
        &[1, 3],
        9,
        "pivot 2, Place { step: Pivot, row: 1, column: 3 }",
    ),
    (
        &[
            (&[4, 1], (7, 1)),
            (&[5, 322_743], (1, 1)),
            (&[783_633, 0], (5, 1)),
        ],
        &[8, 2],
        9,
        "pivot 2, Place { step: Ratio, row: 1, column: 6 }",
    ),
];

/// Rows at 128 bits, where the words of a row are shorter than the width.
const LONG: &[Question] = &[
    (BEYOND_A_WORD, &[5, 2, 9], 9, "value 8 at 0 19/7 2/7"),
    (
        &[(&[1, 4], (9, 1)), (&[4_539_397_356_445_199_637, 1], (8, 1))],
        &[8, 5],
        9,
        "pivot 2, Place { step: Pivot, row: 3, column: 5 }",
    ),
];

#[test]
fn programs_are_solved(rt: HostRuntime) -> Result<(), Fail> {
    for question in WIDE {
        let got = answer::<Frac64>(rt.alloc(), *question)?;
        assert_eq!(rt; got.as_str(), question.3);
    }
    Ok(())
}

// Programs of several sizes and with every kind of end, one after the other.
#[test]
fn runs_share_a_workspace(rt: HostRuntime) -> Result<(), Fail> {
    let mut workspace = Workspace::new(rt.alloc());
    for question in WIDE {
        let got = answer_in::<Frac64>(rt.alloc(), &mut workspace, *question)?;
        assert_eq!(rt; got.as_str(), question.3);
    }
    Ok(())
}

#[test]
fn the_first_place_that_does_not_fit(rt: HostRuntime) -> Result<(), Fail> {
    for question in NARROW {
        let got = answer::<Frac32>(rt.alloc(), *question)?;
        assert_eq!(rt; got.as_str(), question.3);
    }
    Ok(())
}

#[test]
fn programs_of_long_numbers(rt: HostRuntime) -> Result<(), Fail> {
    for question in LONG {
        let got = answer::<Frac128>(rt.alloc(), *question)?;
        assert_eq!(rt; got.as_str(), question.3);
    }
    Ok(())
}
