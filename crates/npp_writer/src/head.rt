//! The report: the lines down to the last walk.

ghost use Rattle.std.specs.Prelude.{◌≡◌, ◌++◌, ◌∷◌, [], IfOk, OnOk, string_bytes, if◌then◌else◌};
ghost use Rattle.npp_frac.specs.Wide.{value_of_wide};
ghost use Rattle.npp_tree.specs.declared.item.Item.TheVariants as form;
ghost use Rattle.npp_tree.specs.Lines.{report_lines};
ghost use Rattle.npp_tree.specs.Outcome.{outcome_value};
ghost use Rattle.npp_report.specs.Lines.{item_line, text_of};
ghost use Rattle.npp_report.specs.Report.{names_instance};

use crate::gathered::ROOM;
use crate::lines::write_line;
use npp_frac::{Exact, Frac128};
use npp_net::{Instance, Memory};
use npp_report::{header, names_instance, write_instance, write_paths, write_tolls};
use npp_tree::{Item, Outcome};
use std::alloc::Global;

/// The lines down to the last walk, in a text that has room for what is gathered.
pub(crate) fn report<N: Exact>(
    alloc: Global,
    instance: &Instance,
    outcome: &Outcome<N>,
) -> Result<String, Memory>
    ensures { IfOk result (λ text. string_bytes text ≡ text_of (report_lines (names_instance instance.now) N.WIDTH instance.now
        (outcome_value N.rational outcome.now))) }
{
    let second = names_instance(instance);
    let mut text = String::with_capacity(alloc, ROOM)?;
    write_header(&mut text, second)?;
    write_values(alloc, &mut text, outcome)?;
    write_instance(&mut text, second, instance)?;
    write_tolls(alloc, &mut text, outcome.tolls.values())?;
    write_paths(alloc, &mut text, outcome.paths.entries())?;
    Ok(text)
}

/// The first line, of the second form where the certificate names the instance.
fn write_header(text: &mut String, second: bool) -> Result<(), Memory>
    ensures { OnOk result (string_bytes text.new ≡ string_bytes text.old ++ item_line (if second then form.HeaderTwo else form.Header)) }
{
    text.push_str(header(second))?;
    Ok(())
}

/// The status, the width, the two values, and how many nodes were opened.
fn write_values<N: Exact>(
    alloc: Global,
    text: &mut String,
    outcome: &Outcome<N>,
) -> Result<(), Memory>
    ensures { OnOk result (string_bytes text.new ≡ string_bytes text.old ++ text_of
        (form.StatusIs outcome.now.status ∷ form.Width N.WIDTH ∷ form.Lower (value_of_wide outcome.now.lower)
        ∷ form.Upper (value_of_wide outcome.now.upper) ∷ form.Opened outcome.now.opened ∷ [])) }
{
    write_line::<Frac128>(alloc, text, &Item::StatusIs(outcome.status))?;
    write_line::<Frac128>(alloc, text, &Item::Width(N::WIDTH))?;
    write_line(alloc, text, &Item::Lower(outcome.lower))?;
    write_line(alloc, text, &Item::Upper(outcome.upper))?;
    write_line::<Frac128>(alloc, text, &Item::Opened(outcome.opened))
}
