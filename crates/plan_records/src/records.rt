//! The records of a plan.
ghost use Rattle.std.specs.Prelude.{◌≡◌, [], IfOk, OnOk};
ghost use Rattle.csv.specs.Records.{fields_of};
ghost use Rattle.game_types.specs.Sound.{IsSound};
ghost use Rattle.plan_records.specs.Records.{flow_record, price_record, row_record, total_record, with_head};

use crate::fields::{
    push_field, push_machines, push_no_machines, push_no_number, push_no_uses, push_number,
    push_uses,
};
use crate::setups::{push_no_setup, push_setup};
use csv::StringRecord;
use fractions::Ratio;
use game_types::Game;
use plan_base::{GoodId, NoMemory};
use plan_lines::Figures;
use production_table::TableRow;
use report_json::good_id;
use std::alloc::Global;

#[tactic(auto, unfolding(crate::specs::Records::with_head))]
fn push_head(fields: &mut StringRecord, section: &str, name: &str) -> Result<(), NoMemory>
    ensures { OnOk result (fields_of fields.new ≡ with_head section.now name.now (fields_of fields.old)) }
{
    push_field(fields, section)?;
    push_field(fields, name)
}

/// The record of a row: its crafts a second, its figures, and the price of one craft.
#[tactic(auto, unfolding(crate::specs::Records::row_record))]
pub fn row_record(
    alloc: Global,
    game: &Game,
    row: &TableRow,
    rate: &Ratio,
    figures: &Figures,
) -> Result<StringRecord, NoMemory>
    requires { IsSound game.now }
    ensures { IfOk result (λ fields. fields_of fields ≡ row_record game.now row.now rate.now figures.now) }
{
    let mut fields = StringRecord::new(alloc);
    push_head(&mut fields, "row", row.label.as_str())?;
    push_setup(&mut fields, alloc, game, &row.setup)?;
    push_number(&mut fields, alloc, rate)?;
    push_machines(&mut fields, alloc, figures)?;
    push_uses(&mut fields, alloc, figures)?;
    push_number(&mut fields, alloc, &row.price)?;
    Ok(fields)
}

/// The record of a good with so many a second.
#[tactic(auto, unfolding(crate::specs::Records::flow_record))]
pub fn flow_record(
    alloc: Global,
    game: &Game,
    section: &str,
    good: GoodId,
    rate: &Ratio,
) -> Result<StringRecord, NoMemory>
    requires { IsSound game.now }
    ensures { IfOk result (λ fields. fields_of fields ≡ flow_record game.now section.now good rate.now) }
{
    let name = good_id(alloc, game, good)?;
    let mut fields = StringRecord::new(alloc);
    push_head(&mut fields, section, name.as_str())?;
    push_no_setup(&mut fields)?;
    push_number(&mut fields, alloc, rate)?;
    push_no_machines(&mut fields)?;
    push_no_uses(&mut fields)?;
    push_no_number(&mut fields)?;
    Ok(fields)
}

/// The record of the price of a unit of a good.
#[tactic(auto, unfolding(crate::specs::Records::price_record))]
pub fn price_record(
    alloc: Global,
    game: &Game,
    good: GoodId,
    price: &Ratio,
) -> Result<StringRecord, NoMemory>
    requires { IsSound game.now }
    ensures { IfOk result (λ fields. fields_of fields ≡ price_record game.now good price.now) }
{
    let name = good_id(alloc, game, good)?;
    let mut fields = StringRecord::new(alloc);
    push_head(&mut fields, "price", name.as_str())?;
    push_no_setup(&mut fields)?;
    push_no_number(&mut fields)?;
    push_no_machines(&mut fields)?;
    push_no_uses(&mut fields)?;
    push_number(&mut fields, alloc, price)?;
    Ok(fields)
}

/// The record of the table as a whole: what it uses, and its cost.
#[tactic(auto, unfolding(crate::specs::Records::total_record))]
pub fn total_record(
    alloc: Global,
    table: &str,
    total: &Figures,
    cost: &Ratio,
) -> Result<StringRecord, NoMemory>
    ensures { IfOk result (λ fields. fields_of fields ≡ total_record table.now total.now cost.now) }
{
    let mut fields = StringRecord::new(alloc);
    push_head(&mut fields, "total", table)?;
    push_no_setup(&mut fields)?;
    push_no_number(&mut fields)?;
    push_no_machines(&mut fields)?;
    push_uses(&mut fields, alloc, total)?;
    push_number(&mut fields, alloc, cost)?;
    Ok(fields)
}
