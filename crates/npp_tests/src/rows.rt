//! Programs, row by row.

use npp_fixtures::{
    Cuts, THREE_PAIRS, all_allowed, are_cuts, covers_of, cuts_of, family, instance_of, is_choice,
    is_family, write_numbers,
};
use npp_frac::{Exact, Frac32, Frac64, Frac128, parse_fraction, print_fraction};
use npp_lp::{Entry, Program, check_dual};
use npp_net::Listed;
use npp_rows::{
    CutRow, PathTable, ProgramRoom, RelaxRefusal, RelaxationIndex, RowName, basic_of, inverse,
    relaxation, relaxation_any_size,
};
use std::alloc::Global;
use std::test::Fail;

/// A row as text: its coefficients by the numbers of their columns, and its right side.
fn write_row<N: Exact>(
    alloc: Global,
    text: &mut String,
    entries: &[Entry<N>],
    right: N,
) -> Result<(), Fail> {
    for entry in entries {
        write!(
            text,
            "{}:{} ",
            entry.column,
            print_fraction(alloc, entry.value)?
        )?;
    }
    writeln!(text, "<= {}", print_fraction(alloc, right)?)?;
    Ok(())
}

/// A program as text: its rows, and then its goal with a number for each column.
fn text_of<N: Exact>(alloc: Global, program: &Program<N>) -> Result<String, Fail> {
    let mut text = String::new(alloc);
    for row in 0..program.row_count() {
        if let Some(right) = program.right().get(row) {
            write_row(alloc, &mut text, program.row(row), *right)?;
        }
    }
    text.push_str("goal")?;
    write_numbers(alloc, &mut text, program.goal()).ok_or("no memory")?;
    Ok(text)
}

/// The relaxation of a family with some cuts as text, or `Large`.
fn relaxation_text<N: Exact>(
    alloc: Global,
    text: &str,
    parts: &[&[u32]],
    cuts: &[CutRow<N>],
) -> Result<String, Fail> {
    let net = instance_of(alloc, text)?;
    let covers = covers_of(alloc, &net)?;
    let covers = covers.as_slice();
    let allowed = family(alloc, parts)?;
    if !is_family(covers, &allowed) || !are_cuts(covers, cuts) {
        return Err("no family, or no cuts")?;
    }
    match relaxation(alloc, &net, covers, &allowed, cuts) {
        Ok(program) => text_of(alloc, &program),
        Err(RelaxRefusal::Large) => Ok(format!(in alloc; "Large")?),
        Err(RelaxRefusal::Memory) => Err("no memory")?,
    }
}

/// The inverse program of a choice as text.
fn inverse_text<N: Exact>(alloc: Global, text: &str, choice: &[u32]) -> Result<String, Fail> {
    let net = instance_of(alloc, text)?;
    let covers = covers_of(alloc, &net)?;
    let covers = covers.as_slice();
    if !is_choice(covers, choice) {
        return Err("no choice")?;
    }
    let program = inverse::<N>(alloc, &net, covers, choice)?;
    text_of(alloc, &program)
}

/// The columns are the toll, the six shares, and what each commodity pays.
const THREE_RELAXED: &str = "0:1 <= 8
0:-1 1:2 2:10 7:1 <= 2
1:2 2:10 7:1 <= 10
0:-1 3:2 4:8 8:1 <= 2
3:2 4:8 8:1 <= 8
0:-1 5:2 6:5 9:1 <= 2
5:2 6:5 9:1 <= 5
0:-1 7:1 <= 0
0:-1 8:1 <= 0
0:-1 9:1 <= 0
1:-8 7:1 <= 0
3:-6 8:1 <= 0
5:-3 9:1 <= 0
0:1 1:8 7:-1 <= 8
0:1 3:8 8:-1 <= 8
0:1 5:8 9:-1 <= 8
1:1 2:1 <= 1
3:1 4:1 <= 1
5:1 6:1 <= 1
1:-1 2:-1 <= -1
3:-1 4:-1 <= -1
5:-1 6:-1 <= -1
goal 0 0 0 0 0 0 0 1 1 3";

/// Both paths of each commodity.
const ALL_PATHS: &[&[u32]] = &[&[0, 1], &[0, 1], &[0, 1]];

#[test]
fn the_rows_of_a_relaxation(rt: HostRuntime) -> Result<(), Fail> {
    let narrow = relaxation_text::<Frac32>(rt.alloc(), THREE_PAIRS, ALL_PATHS, &[])?;
    let wide = relaxation_text::<Frac128>(rt.alloc(), THREE_PAIRS, ALL_PATHS, &[])?;
    assert_eq!(rt; [narrow.as_str(), wide.as_str()], [THREE_RELAXED; 2]);
    Ok(())
}

/// The first commodity has both paths, the second the one by the toll arc, the third the other, which pays on no toll. The
/// cut keeps the terms of the allowed paths alone.
const SOME_RELAXED: &str = "0:1 <= 8
0:-1 1:2 2:10 5:1 <= 2
1:2 2:10 5:1 <= 10
0:-1 3:2 6:1 <= 2
3:2 6:1 <= 8
0:-1 4:5 <= 2
4:5 <= 5
0:-1 5:1 <= 0
0:-1 6:1 <= 0
1:-8 5:1 <= 0
3:-6 6:1 <= 0
0:1 1:8 5:-1 <= 8
0:1 3:8 6:-1 <= 8
1:1 2:1 <= 1
3:1 <= 1
4:1 <= 1
1:-1 2:-1 <= -1
3:-1 <= -1
4:-1 <= -1
2:2 4:-1/2 <= 3/2
goal 0 0 0 0 0 1 1";

/// That family.
const SOME_PATHS: &[&[u32]] = &[&[0, 1], &[0], &[1]];

/// Its cut.
const SOME_CUT: Cuts<'static> = &[(&[(0, 1, (2, 1)), (1, 1, (1, 1)), (2, 1, (-1, 2))], (3, 2))];

/// The relaxation of that family with its cut as text.
fn some_relaxed<N: Exact>(alloc: Global) -> Result<String, Fail> {
    let cuts = cuts_of::<N>(alloc, SOME_CUT).ok_or("no cuts")?;
    relaxation_text(alloc, THREE_PAIRS, SOME_PATHS, &cuts)
}

#[test]
fn the_rows_of_a_family_with_a_cut(rt: HostRuntime) -> Result<(), Fail> {
    let narrow = some_relaxed::<Frac32>(rt.alloc())?;
    let wide = some_relaxed::<Frac128>(rt.alloc())?;
    assert_eq!(rt; [narrow.as_str(), wide.as_str()], [SOME_RELAXED; 2]);
    Ok(())
}

/// All three commodities take the toll arc.
const ALL_BY_TOLL: &str = "0:1 <= 8
<= 0
0:1 <= 8
<= 0
0:1 <= 6
<= 0
0:1 <= 3
goal 5";

/// The first commodity keeps off the toll arc.
const FIRST_BESIDE: &str = "0:1 <= 8
0:-1 <= -8
<= 0
<= 0
0:1 <= 6
<= 0
0:1 <= 3
goal 4";

/// Choices with their inverse programs.
const INVERSES: &[(&[u32], &str)] = &[(&[0, 0, 0], ALL_BY_TOLL), (&[1, 0, 0], FIRST_BESIDE)];

#[test]
fn the_rows_of_inverse_programs(rt: HostRuntime) -> Result<(), Fail> {
    let alloc = rt.alloc();
    for (choice, want) in INVERSES {
        let narrow = inverse_text::<Frac32>(alloc, THREE_PAIRS, choice)?;
        let wide = inverse_text::<Frac128>(alloc, THREE_PAIRS, choice)?;
        assert_eq!(rt; [narrow.as_str(), wide.as_str()], [*want; 2]);
    }
    Ok(())
}

/// So many cuts without terms, each of which says that 0 is at most 1.
fn bare_cuts(alloc: Global, count: u32) -> Result<Vec<CutRow<Frac64>>, Fail> {
    let mut cuts = Vec::new(alloc);
    for _ in 0..count {
        cuts.push(CutRow {
            terms: Listed::of(Vec::new(alloc)),
            right: Frac64::of_whole(1),
        })?;
    }
    Ok(cuts)
}

/// How many rows the relaxation over all paths of the three commodities has with so many cuts; `None` where it is too large.
fn row_count(alloc: Global, count: u32, any_size: bool) -> Result<Option<usize>, Fail> {
    let net = instance_of(alloc, THREE_PAIRS)?;
    let covers = covers_of(alloc, &net)?;
    let covers = covers.as_slice();
    let allowed = all_allowed(alloc, &net, covers)?;
    let cuts = bare_cuts(alloc, count)?;
    let cuts = cuts.as_slice();
    if !are_cuts(covers, cuts) {
        return Err("no cuts")?;
    }
    if any_size {
        let program = relaxation_any_size(alloc, &net, covers, &allowed, cuts)?;
        return Ok(Some(program.row_count()));
    }
    match relaxation(alloc, &net, covers, &allowed, cuts) {
        Ok(program) => Ok(Some(program.row_count())),
        Err(RelaxRefusal::Large) => Ok(None),
        Err(RelaxRefusal::Memory) => Err("no memory")?,
    }
}

/// Numbers of cuts, whether any size is taken, and the rows. With ten columns 100,000 rows are not too many, and one more is.
const ROW_COUNTS: &[(u32, bool, Option<usize>)] = &[
    (99_978, false, Some(100_000)),
    (99_979, false, None),
    (99_979, true, Some(100_001)),
];

#[test]
fn a_relaxation_of_a_million_is_not_large(rt: HostRuntime) -> Result<(), Fail> {
    for (cuts, any_size, want) in ROW_COUNTS {
        let got = row_count(rt.alloc(), *cuts, *any_size)?;
        assert_eq!(rt; got, *want);
    }
    Ok(())
}

/// The basic bound of a family of paths of the three commodities.
fn basic(alloc: Global, parts: &[&[u32]]) -> Result<u128, Fail> {
    let net = instance_of(alloc, THREE_PAIRS)?;
    let covers = covers_of(alloc, &net)?;
    let covers = covers.as_slice();
    let allowed = family(alloc, parts)?;
    if !is_family(covers, &allowed) {
        return Err("no family")?;
    }
    Ok(basic_of(&net, covers, &allowed))
}

/// Families with their bounds. Without the toll arc for the third commodity 9 of the 23 are lost, and by its path beside it alone a
/// commodity pays nothing.
const BASIC_BOUNDS: &[(&[&[u32]], u128)] = &[
    (ALL_PATHS, 23),
    (&[&[0, 1], &[0, 1], &[1]], 14),
    (&[&[1], &[1], &[1]], 0),
];

#[test]
fn basic_bounds_of_families(rt: HostRuntime) -> Result<(), Fail> {
    for (parts, want) in BASIC_BOUNDS {
        let got = basic(rt.alloc(), parts)?;
        assert_eq!(rt; got, *want);
    }
    Ok(())
}

/// The multiplier of a row in a dual answer of the relaxation.
fn multiplier(row: RowName) -> &'static [u8] {
    match row {
        RowName::Below(0, 0) => b"1",
        RowName::Below(0, 1) => b"19/20",
        RowName::Use(0, 1) => b"1/5",
        RowName::Use(0, 2) => b"24/5",
        RowName::Link(0, 1) => b"3/20",
        RowName::Link(0, 2) => b"9/5",
        _ => b"0",
    }
}

/// The multipliers of all rows.
fn multipliers(alloc: Global, rows: &[RowName]) -> Result<Vec<Frac128>, Fail> {
    let mut y = Vec::new(alloc);
    for row in rows {
        y.push(parse_fraction(multiplier(*row)).ok_or("no fraction")?)?;
    }
    Ok(y)
}

/// Spread over the rows, the six multipliers of a certificate are a dual answer of its upper value.
#[test]
fn six_multipliers_are_a_dual_answer(rt: HostRuntime) -> Result<(), Fail> {
    let alloc = rt.alloc();
    let net = instance_of(alloc, THREE_PAIRS)?;
    let covers = covers_of(alloc, &net)?;
    let covers = covers.as_slice();
    let allowed = all_allowed(alloc, &net, covers)?;
    let table = PathTable::new(alloc, &net, covers)?;
    let index = RelaxationIndex::new(alloc, &table, &allowed)?;
    let mut room = ProgramRoom::new(alloc);
    let program = index.program::<Frac128>(alloc, &mut room, &[])?;
    let y = multipliers(alloc, room.rows())?;
    assert_eq!(rt; y.len(), program.row_count());
    let value = check_dual(&program, &y).ok().ok_or("no dual answer")?;
    assert_eq!(rt; print_fraction(alloc, value)?.as_str(), "78/5");
    Ok(())
}
