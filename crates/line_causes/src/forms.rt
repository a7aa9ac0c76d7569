// What stands at the places of a line, command by command.
ghost use Rattle.std.specs.Prelude.{◌≡◌, IfOk, string_bytes};
ghost use Rattle.std.specs.List.{slice_get};
ghost use Rattle.line_causes.specs.Forms.{form, front_words, next_words, slot_code, slot_name, slot_words};

use plan_lines::RefusalCode;
use script_reader::CommandWord;
use std::alloc::{AllocError, Global};

/// What may stand at a place of a line behind its first word.
#[derive(Clone, Copy, Debug, PartialEq, Eq)]
pub enum Slot {
    Table,
    Label,
    Node,
    Good,
    TableGood,
    Recipe,
    Tech,
    Item,
    Fluid,
    Machine,
    Activity,
    Kind,
    /// A number, or `drop`.
    Amount,
    Number,
    Price,
    /// A price, or `off`.
    PriceOrOff,
    Count,
    Share,
    /// A budget, or nothing.
    Budget,
    By,
    Switch,
    /// The parts of a row.
    Parts,
}

/// The name of what stands at a place.
pub fn slot_name(slot: Slot) -> &'static str
    ensures { result.now ≡ slot_name slot }
{
    match slot {
        Slot::Table => "TABLE",
        Slot::Label => "LABEL",
        Slot::Node => "NODE",
        Slot::Good => "GOOD",
        Slot::TableGood => "TABLEGOOD",
        Slot::Recipe => "RECIPE",
        Slot::Tech => "TECH",
        Slot::Item => "ITEM",
        Slot::Fluid => "FLUID",
        Slot::Machine => "MACHINE",
        Slot::Activity => "ACTIVITY",
        Slot::Kind => "KIND",
        Slot::Amount => "AMOUNT or drop",
        Slot::Number => "Q",
        Slot::Price => "PRICE",
        Slot::PriceOrOff => "PRICE or off",
        Slot::Count => "COUNT",
        Slot::Share => "SHARE",
        Slot::Budget => "BUDGET or nothing",
        Slot::By => "by",
        Slot::Switch => "on or off",
        Slot::Parts =>
            "fuel ITEM, module ITEM COUNT, beacon MACHINE COUNT SHARE, in ITEM COUNT behind a beacon, at FLUID, or nothing",
    }
}

/// What stands at a place, in words.
pub fn slot_words(slot: Slot) -> &'static str
    ensures { result.now ≡ slot_words slot }
{
    match slot {
        Slot::Table => "the name of a table",
        Slot::Label => "the label of a row",
        Slot::Node => "the name of a thing, such as item:NAME, recipe:NAME or tech:NAME",
        Slot::Good => "an item or a fluid, such as item:NAME",
        Slot::TableGood =>
            "an item, a fluid, special:electricity or a technology, such as item:NAME",
        Slot::Recipe => "a recipe, such as recipe:NAME",
        Slot::Tech => "a technology, such as tech:NAME",
        Slot::Item => "an item, such as item:NAME",
        Slot::Fluid => "a fluid, such as fluid:NAME",
        Slot::Machine => "a machine, such as machine:NAME",
        Slot::Activity =>
            "a recipe, a source, a fluid, special:electricity or a technology, such as recipe:NAME",
        Slot::Kind => "a kind: special, item, fluid, recipe, source, machine or tech",
        Slot::Amount => "a number such as 2.5 or 5/2, or drop",
        Slot::Number => "a number such as 2.5 or 5/2",
        Slot::Price => "a number such as 2.5 or 5/2",
        Slot::PriceOrOff => "a number such as 2.5 or 5/2, or off",
        Slot::Count => "a whole number from 0 to 65535",
        Slot::Share => "a whole number from 0 to 65535",
        Slot::Budget => "a whole number from 1 to 100000",
        Slot::By => "by",
        Slot::Switch => "on or off",
        Slot::Parts => "a part of a row",
    }
}

/// The code of a line in which something else stands at such a place.
pub fn slot_code(slot: Slot) -> RefusalCode
    ensures { result ≡ slot_code slot }
{
    match slot {
        Slot::Amount
        | Slot::Number
        | Slot::Price
        | Slot::PriceOrOff
        | Slot::Count
        | Slot::Share
        | Slot::Budget => RefusalCode::Q3,
        Slot::Table | Slot::Label | Slot::By | Slot::Switch | Slot::Parts => RefusalCode::Q2,
        _ => RefusalCode::Q5,
    }
}

/// What stands behind the first word of a line.
pub fn form_of(command: CommandWord) -> &'static [Slot]
    ensures { result.now ≡ form command }
{
    match command {
        CommandWord::Reach
        | CommandWord::Why
        | CommandWord::Missing
        | CommandWord::Mask
        | CommandWord::Grant
        | CommandWord::Revoke
        | CommandWord::Forbid
        | CommandWord::Permit
        | CommandWord::Milestone
        | CommandWord::Unmilestone => &[Slot::Node],
        CommandWord::List => &[Slot::Kind],
        CommandWord::Rate | CommandWord::Unrow => &[Slot::Table, Slot::Label],
        CommandWord::Solve => &[Slot::Table, Slot::Budget],
        CommandWord::Quiet => &[Slot::Switch],
        CommandWord::Ingredient | CommandWord::Product => {
            &[Slot::Recipe, Slot::Good, Slot::Amount]
        }
        CommandWord::Unlock => &[Slot::Tech, Slot::Recipe, Slot::Switch],
        CommandWord::Time => &[Slot::Recipe, Slot::Number],
        CommandWord::Enabled => &[Slot::Recipe, Slot::Switch],
        CommandWord::Table | CommandWord::Untable => &[Slot::Table],
        CommandWord::Row => &[
            Slot::Table,
            Slot::Label,
            Slot::Activity,
            Slot::By,
            Slot::Machine,
            Slot::Parts,
        ],
        CommandWord::Price => &[Slot::Table, Slot::Label, Slot::Price],
        CommandWord::Want => &[Slot::Table, Slot::TableGood, Slot::Number],
        CommandWord::Import | CommandWord::Surplus => {
            &[Slot::Table, Slot::TableGood, Slot::PriceOrOff]
        }
        CommandWord::Power => &[Slot::Table, Slot::Switch],
        CommandWord::Milestones
        | CommandWord::Summary
        | CommandWord::Undo
        | CommandWord::Redo
        | CommandWord::Batch
        | CommandWord::End
        | CommandWord::Cancel => &[],
    }
}

/// The names of what stands at places, each behind a space.
pub fn front_words(alloc: Global, slots: &[Slot]) -> Result<String, AllocError>
    ensures { IfOk result (λ text. string_bytes text ≡ front_words slots.now) }
{
    let mut text = String::new(alloc);
    for slot in slots {
        let name = slot_name(*slot);
        write!(text, " {name}")?;
    }
    Ok(text)
}

/// The name of what stands at a place of a line, or that nothing more stands there.
pub fn next_words(slots: &[Slot], at: usize) -> &'static str
    ensures { result.now ≡ next_words (slice_get slots.now at) }
{
    match slots.get(at) {
        Some(slot) => slot_name(*slot),
        None => "nothing more",
    }
}
