//! Rows and columns by their names, and sums of named rows without a program.

ghost use Rattle.std.specs.Prelude.{◌≡◌, ◌≤◌, length, All};
ghost use Rattle.npp_rows.specs.Cuts.{IsCut};
ghost use Rattle.npp_rows.specs.Meaning.{cut_value};
ghost use Rattle.npp_rows.specs.Relax.{relaxation_columns};
ghost use Rattle.npp_rows.specs.Rows.{IsChoice};

use npp_fixtures::{
    Named, Number, THREE_PAIRS, all_allowed, covers_of, instance_of, is_choice, multipliers_of,
};
use npp_frac::{Exact, Frac32, Frac64, Frac128, print_fraction};
use npp_rows::{
    ColumnName, CutRow, Multiplier, MultiplierFault, NamedSums, PathTable, ProgramRoom,
    RelaxationIndex, RowName,
};
use std::alloc::Global;
use std::process::Abort;
use std::test::Fail;

/// Expects that the rows of the relaxation rise, and that the place of each is its number.
fn expect_places(
    rt: &impl Abort,
    index: &RelaxationIndex,
    rows: &[RowName],
    cuts: u32,
) -> Result<(), Fail>
    requires { cuts ≤ 16777216 }
{
    let mut last = None;
    for (i, row) in rows.iter().enumerate() {
        assert!(rt; row.is_after(last), "{row:?}");
        assert_eq!(rt;
            index.row_place(cuts, *row).map(u64::from),
            Some(i as u64),
            "{row:?}"
        );
        last = Some(*row);
    }
    Ok(())
}

/// Names of no row of the relaxation with two cuts.
const NO_ROWS: &[RowName] = &[
    RowName::Cap(1),
    RowName::Follow(0, 2),
    RowName::Follow(3, 0),
    RowName::Below(1, 0),
    RowName::Use(0, 3),
    RowName::OneLow(3),
    RowName::Cut(2),
];

#[test]
fn the_places_of_names(rt: HostRuntime) -> Result<(), Fail> {
    let alloc = rt.alloc();
    let net = instance_of(alloc, THREE_PAIRS)?;
    let covers = covers_of(alloc, &net)?;
    let covers = covers.as_slice();
    let allowed = all_allowed(alloc, &net, covers)?;
    let table = PathTable::new(alloc, &net, covers)?;
    let index = RelaxationIndex::new(alloc, &table, &allowed)?;
    let mut room = ProgramRoom::new(alloc);
    let program = index.program::<Frac32>(alloc, &mut room, &[])?;
    assert_eq!(rt; [program.row_count(), room.rows().len()], [22, 22]);
    expect_places(&rt, &index, room.rows(), 2)?;
    let cuts = [
        index.row_place(2, RowName::Cut(0)),
        index.row_place(2, RowName::Cut(1)),
    ];
    assert_eq!(rt; cuts, [Some(22), Some(23)]);
    for row in NO_ROWS {
        assert_eq!(rt; index.row_place(2, *row), None, "{row:?}");
    }
    let places = [
        table.choice_row_place(RowName::Follow(2, 1)),
        table.choice_row_place(RowName::One(0)),
    ];
    assert_eq!(rt; places, [Some(6), None]);
    let before = [
        RowName::Below(1, 0).is_before(RowName::Below(0, 1)),
        RowName::Cut(1).is_before(RowName::Cut(1)),
    ];
    assert_eq!(rt; before, [true, false]);
    Ok(())
}

/// Columns of the relaxation with their places.
const COLUMNS: &[(ColumnName, Option<u32>)] = &[
    (ColumnName::Toll(0), Some(0)),
    (ColumnName::Share(0, 0), Some(1)),
    (ColumnName::Share(2, 1), Some(6)),
    (ColumnName::Paid(0, 2), Some(9)),
    (ColumnName::Toll(1), None),
    (ColumnName::Share(1, 2), None),
    (ColumnName::Paid(1, 0), None),
];

#[test]
fn the_places_of_columns(rt: HostRuntime) -> Result<(), Fail> {
    let alloc = rt.alloc();
    let net = instance_of(alloc, THREE_PAIRS)?;
    let covers = covers_of(alloc, &net)?;
    let covers = covers.as_slice();
    let allowed = all_allowed(alloc, &net, covers)?;
    let table = PathTable::new(alloc, &net, covers)?;
    let index = RelaxationIndex::new(alloc, &table, &allowed)?;
    assert_eq!(rt; index.column_count(), 10);
    for (column, want) in COLUMNS {
        assert_eq!(rt; index.column_place(*column), *want, "{column:?}");
    }
    let places = [
        table.choice_column_place(ColumnName::Toll(0)),
        table.choice_column_place(ColumnName::Share(0, 0)),
    ];
    assert_eq!(rt; places, [Some(0), None]);
    Ok(())
}

/// The six multipliers of a certificate: a dual answer of the relaxation over all paths.
const SIX: Named<'static> = &[
    (RowName::Below(0, 0), (1, 1)),
    (RowName::Below(0, 1), (19, 20)),
    (RowName::Use(0, 1), (1, 5)),
    (RowName::Use(0, 2), (24, 5)),
    (RowName::Link(0, 1), (3, 20)),
    (RowName::Link(0, 2), (9, 5)),
];

/// Takes rows of a relaxation with some cuts, and tells what is refused and where.
fn take_all<N: Exact>(
    sums: &mut NamedSums<N>,
    index: &RelaxationIndex,
    cuts: &[CutRow<N>],
    rows: &[Multiplier<N>],
) -> Option<(usize, MultiplierFault)>
    requires cuts { All (λ c. IsCut index.now.paths (cut_value N.rational c)) cuts.now }
    requires few { length cuts.now ≤ 16777216 }
    requires columns { length sums.old.sums.columns ≡ length (relaxation_columns index.now.paths index.now.parts) }
    ensures { length sums.new.sums.columns ≡ length sums.old.sums.columns }
{
    for (i, row) in rows.iter().enumerate() {
        match sums.take(index, cuts, *row) {
            Ok(()) => {}
            Err(fault) => return Some((i, fault)),
        }
    }
    None
}

/// The verdict on named rows as a dual answer of a relaxation, or the first fault. What was taken before is cleared.
fn verdict<N: Exact>(
    alloc: Global,
    index: &RelaxationIndex,
    before: &[Multiplier<N>],
    rows: &[Multiplier<N>],
) -> Result<String, Fail> {
    let columns = index.column_count();
    let goal = index.goal::<N>(alloc)?;
    let cuts = Vec::<CutRow<N>>::new(alloc);
    let mut sums = NamedSums::<N>::new(alloc, columns)?;
    let _fault = take_all(&mut sums, index, &cuts, before);
    sums.clear();
    if let Some((i, fault)) = take_all(&mut sums, index, &cuts, rows) {
        return Ok(format!(in alloc; "{fault:?} at {i}")?);
    }
    if goal.len() != columns as usize {
        return Err("not a number for each column")?;
    }
    match sums.judge_dual(&goal) {
        Ok(value) => Ok(format!(in alloc; "value {}", print_fraction(alloc, value)?)?),
        Err(_) => Ok(format!(in alloc; "no dual answer")?),
    }
}

/// The verdict on named rows of the relaxation over all paths of the three commodities.
fn dual_text<N: Exact>(alloc: Global, before: Named, rows: Named) -> Result<String, Fail> {
    let net = instance_of(alloc, THREE_PAIRS)?;
    let covers = covers_of(alloc, &net)?;
    let covers = covers.as_slice();
    let allowed = all_allowed(alloc, &net, covers)?;
    let table = PathTable::new(alloc, &net, covers)?;
    let index = RelaxationIndex::new(alloc, &table, &allowed)?;
    let before = multipliers_of::<N>(alloc, before).ok_or("no multipliers")?;
    let rows = multipliers_of::<N>(alloc, rows).ok_or("no multipliers")?;
    verdict(alloc, &index, &before, &rows)
}

#[test]
fn named_rows_are_a_dual_answer(rt: HostRuntime) -> Result<(), Fail> {
    let alloc = rt.alloc();
    let narrow = dual_text::<Frac32>(alloc, &[], SIX)?;
    let wide = dual_text::<Frac128>(alloc, SIX, SIX)?;
    let fewer = dual_text::<Frac64>(alloc, &[], &SIX[..5])?;
    let got = [narrow.as_str(), wide.as_str(), fewer.as_str()];
    assert_eq!(rt; got, ["value 78/5", "value 78/5", "no dual answer"]);
    Ok(())
}

/// The only row of the first commodity's shares.
const FIRST_ONE: RowName = RowName::One(0);

/// The only cap.
const CAP: RowName = RowName::Cap(0);

/// Rows with their first faults.
const FAULTS: &[(Named<'static>, &str)] = &[
    (
        &[(CAP, (1, 1)), (RowName::Cut(0), (-1, 1))],
        "NoSuchRow at 1",
    ),
    (&[(FIRST_ONE, (1, 1)), (CAP, (-1, 1))], "NotAfter at 1"),
    (&[(FIRST_ONE, (1, 1)), (FIRST_ONE, (1, 1))], "NotAfter at 1"),
    (&[(CAP, (0, 1))], "NotPositive at 0"),
    (&[(CAP, (1, 1)), (FIRST_ONE, (-1, 2))], "NotPositive at 1"),
];

#[test]
fn the_first_fault_of_a_named_row(rt: HostRuntime) -> Result<(), Fail> {
    for (named, want) in FAULTS {
        let text = dual_text::<Frac64>(rt.alloc(), &[], named)?;
        assert_eq!(rt; text.as_str(), *want);
    }
    Ok(())
}

/// Takes rows of the inverse program of a choice, and tells whether all were taken.
fn take_for_choice<N: Exact>(
    sums: &mut NamedSums<N>,
    table: &PathTable,
    choice: &[u32],
    rows: &[Multiplier<N>],
) -> bool
    requires choice { IsChoice table.now choice.now }
    requires columns { length sums.old.sums.columns ≡ length table.now.caps }
{
    for row in rows {
        if sums.take_for_choice(table, choice, *row).is_err() {
            return false;
        }
    }
    true
}

/// Whether named rows prove that no tolls make the paths of a choice of the three commodities cheapest.
fn has_no_tolls<N: Exact>(alloc: Global, choice: &[u32], rows: Named) -> Result<bool, Fail> {
    let net = instance_of(alloc, THREE_PAIRS)?;
    let covers = covers_of(alloc, &net)?;
    let covers = covers.as_slice();
    if !is_choice(covers, choice) {
        return Err("no choice")?;
    }
    let table = PathTable::new(alloc, &net, covers)?;
    let rows = multipliers_of::<N>(alloc, rows).ok_or("no multipliers")?;
    let mut sums = NamedSums::<N>::new(alloc, table.tolls())?;
    Ok(take_for_choice(&mut sums, &table, choice, &rows) && sums.judge_farkas().is_ok())
}

/// The first commodity keeps off the toll arc from a toll of 8 on.
const OFF: RowName = RowName::Follow(0, 0);

/// The third takes it up to a toll of 3.
const ON: RowName = RowName::Follow(2, 1);

/// Rows that prove that no tolls do both.
const NO_TOLLS: Named<'static> = &[(OFF, (1, 1)), (ON, (1, 1))];

/// Rows that prove nothing.
const UNEQUAL: Named<'static> = &[(OFF, (1, 1)), (ON, (3, 1))];

const OUT_OF_ORDER: Named<'static> = &[(ON, (1, 1)), (OFF, (1, 1))];

const OF_NO_CHOICE: Named<'static> = &[(FIRST_ONE, (1, 1))];

#[test]
fn named_rows_are_a_farkas_answer(rt: HostRuntime) -> Result<(), Fail> {
    let alloc = rt.alloc();
    let choice = [1, 0, 0];
    let got = [
        has_no_tolls::<Frac32>(alloc, &choice, NO_TOLLS)?,
        has_no_tolls::<Frac64>(alloc, &choice, UNEQUAL)?,
        has_no_tolls::<Frac64>(alloc, &choice, OUT_OF_ORDER)?,
        has_no_tolls::<Frac128>(alloc, &choice, OF_NO_CHOICE)?,
    ];
    assert_eq!(rt; got, [true, false, false, false]);
    Ok(())
}
