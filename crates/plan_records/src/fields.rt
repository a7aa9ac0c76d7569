//! Fields of a record, put behind those that are there.
ghost use Rattle.std.specs.Prelude.{◌≡◌, None, OnOk};
ghost use Rattle.csv.specs.Records.{fields_of};
ghost use Rattle.plan_report.specs.Plans.{figure_word};
ghost use Rattle.plan_records.specs.Fields.{with_blank, with_field, with_figure, with_machines, with_no_machines, with_no_number, with_no_uses, with_number, with_uses};

use csv::StringRecord;
use fractions::Ratio;
use plan_base::NoMemory;
use plan_lines::Figures;
use report_json::decimal_of;
use std::alloc::Global;

/// Puts a text.
#[tactic(auto, unfolding(crate::specs::Fields::with_field))]
pub fn push_field(fields: &mut StringRecord, text: &str) -> Result<(), NoMemory>
    ensures { OnOk result (fields_of fields.new ≡ with_field text.now (fields_of fields.old)) }
{
    Ok(fields.push_field(text)?)
}

/// Puts an empty text.
#[tactic(auto, unfolding(crate::specs::Fields::with_blank))]
pub fn push_blank(fields: &mut StringRecord) -> Result<(), NoMemory>
    ensures { OnOk result (fields_of fields.new ≡ with_blank (fields_of fields.old)) }
{
    Ok(fields.push_field("")?)
}

/// Puts a number: its exact text, and its nearest decimal.
#[tactic(auto, unfolding(crate::specs::Fields::with_number))]
pub fn push_number(fields: &mut StringRecord, alloc: Global, number: &Ratio) -> Result<(), NoMemory>
    ensures { OnOk result (fields_of fields.new ≡ with_number number.now (fields_of fields.old)) }
{
    let exact = number.print(alloc)?;
    push_field(fields, exact.as_str())?;
    let decimal = decimal_of(alloc, number)?;
    push_field(fields, decimal.as_str())
}

/// Puts that there is no number.
#[tactic(auto, unfolding(crate::specs::Fields::with_no_number))]
pub fn push_no_number(fields: &mut StringRecord) -> Result<(), NoMemory>
    ensures { OnOk result (fields_of fields.new ≡ with_no_number (fields_of fields.old)) }
{
    push_blank(fields)?;
    push_blank(fields)
}

#[tactic(auto, unfolding(crate::specs::Fields::with_figure))]
fn push_wide(fields: &mut StringRecord) -> Result<(), NoMemory>
    ensures { OnOk result (fields_of fields.new ≡ with_figure None (fields_of fields.old)) }
{
    push_field(fields, "wide")?;
    push_field(fields, "")
}

/// Puts a figure, or that it is past the limits of fractions.
#[tactic(auto, unfolding(crate::specs::Fields::with_figure, crate::specs::Fields::with_number))]
pub fn push_figure(
    fields: &mut StringRecord,
    alloc: Global,
    figure: &Option<Ratio>,
) -> Result<(), NoMemory>
    ensures { OnOk result (fields_of fields.new ≡ with_figure figure.now (fields_of fields.old)) }
{
    match figure {
        Some(number) => push_number(fields, alloc, number),
        None => push_wide(fields),
    }
}

// Puts a whole figure.
fn push_count(
    fields: &mut StringRecord,
    alloc: Global,
    figure: &Option<Ratio>,
) -> Result<(), NoMemory>
    ensures { OnOk result (fields_of fields.new ≡ with_field (figure_word figure.now) (fields_of fields.old)) }
{
    match figure {
        Some(number) => {
            let exact = number.print(alloc)?;
            push_field(fields, exact.as_str())
        }
        None => push_field(fields, "wide"),
    }
}

/// Puts machines, and whole ones.
#[tactic(auto, unfolding(crate::specs::Fields::with_machines))]
pub fn push_machines(
    fields: &mut StringRecord,
    alloc: Global,
    figures: &Figures,
) -> Result<(), NoMemory>
    ensures { OnOk result (fields_of fields.new ≡ with_machines figures.now (fields_of fields.old)) }
{
    push_figure(fields, alloc, &figures.machines)?;
    push_count(fields, alloc, &figures.count)
}

/// Puts that there are no machines.
#[tactic(auto, unfolding(crate::specs::Fields::with_no_machines))]
pub fn push_no_machines(fields: &mut StringRecord) -> Result<(), NoMemory>
    ensures { OnOk result (fields_of fields.new ≡ with_no_machines (fields_of fields.old)) }
{
    push_no_number(fields)?;
    push_blank(fields)
}

/// Puts power, drain, the power of beacons and pollution.
#[tactic(auto, unfolding(crate::specs::Fields::with_uses))]
pub fn push_uses(
    fields: &mut StringRecord,
    alloc: Global,
    figures: &Figures,
) -> Result<(), NoMemory>
    ensures { OnOk result (fields_of fields.new ≡ with_uses figures.now (fields_of fields.old)) }
{
    push_figure(fields, alloc, &figures.power)?;
    push_figure(fields, alloc, &figures.drain)?;
    push_figure(fields, alloc, &figures.beacons)?;
    push_figure(fields, alloc, &figures.pollution)
}

/// Puts that nothing is used.
#[tactic(auto, unfolding(crate::specs::Fields::with_no_uses))]
pub fn push_no_uses(fields: &mut StringRecord) -> Result<(), NoMemory>
    ensures { OnOk result (fields_of fields.new ≡ with_no_uses (fields_of fields.old)) }
{
    push_no_number(fields)?;
    push_no_number(fields)?;
    push_no_number(fields)?;
    push_no_number(fields)
}
