//! The causes for which a line is refused, and the code of each.
ghost use Rattle.std.specs.Prelude.{◌≡◌};
ghost use Rattle.line_causes.specs.Causes.{code_of, code_words};

use crate::QuoteFault;
use crate::forms::{Slot, slot_code};
use plan_base::{Kind, Text};
use plan_lines::RefusalCode;
use script_reader::CommandWord;

/// Why a line is refused, as far as its words and the game tell. Each cause is one of a code.
#[derive(Drop)]
pub enum Cause {
    /// What the code alone says.
    Coded(RefusalCode),
    /// The same, of what a word names.
    Of {
        word: Text,
        code: RefusalCode,
    },
    /// The script begins with a byte order mark.
    Mark,
    /// No command is called so.
    NoCommand(Text),
    /// A comment stands behind a command.
    Comment,
    /// Something else stands behind so many words of a command.
    Stands {
        first: Text,
        command: CommandWord,
        at: usize,
    },
    /// A word is not what stands at such a place.
    Unfit {
        word: Text,
        slot: Slot,
    },
    /// A word is badly quoted.
    Quoting(QuoteFault),
    /// Nothing of a kind has the name of a word.
    NoObject {
        kind: Kind,
        word: Text,
    },
    /// An item is no module.
    NoModule(Text),
    /// A machine is no beacon.
    NoBeacon(Text),
    /// There is no table of a name.
    NoTable(Text),
    /// A table has no row of a label.
    NoRow {
        table: Text,
        label: Text,
    },
    /// A good has no import, or no surplus.
    NoPrice(Text),
    /// A machine does not do an activity.
    Undone {
        machine: Text,
        activity: Text,
    },
    /// The same, and another does.
    DoneBy {
        machine: Text,
        activity: Text,
        other: Text,
    },
    /// A machine does not give a fluid that it gives at a temperature.
    Warmer {
        fluid: Text,
        machine: Text,
        variant: Text,
    },
    /// A machine takes a fuel, and none is named; it takes this one.
    Fuelless {
        machine: Text,
        fuel: Text,
    },
}

/// Why a table has no plan, as far as one good tells it.
#[derive(Drop)]
pub enum Short {
    /// No row or import gives the good.
    Ungiven(Text),
    /// No row or import gives the base, but some give this variant of it.
    Warmer { base: Text, variant: Text },
    /// Some give it, but at no rates as much as is taken and wanted of it.
    Unmet(Text),
}

/// What a code says of a line, where no more is known.
pub fn code_words(code: RefusalCode) -> &'static str
    ensures { result.now ≡ code_words code }
{
    match code {
        RefusalCode::Q1 => "the first word is no command",
        RefusalCode::Q2 =>
            "the line has too few words or too many, or another word stands for a fixed one",
        RefusalCode::Q3 => "a word is no number of the kind that stands there",
        RefusalCode::Q4 => "the line is not in UTF-8, or a word is badly quoted",
        RefusalCode::Q5 => "a word names no object of a kind that stands there",
        RefusalCode::X1 => "nothing has this name, or not of the kind that is needed",
        RefusalCode::X2 => "all would be as before",
        RefusalCode::X3 => "an amount or a time has to be above 0",
        RefusalCode::X4 => "a list would have more than 1,024 entries",
        RefusalCode::M1 => "there are 256 milestones already",
        RefusalCode::M2 => "it is a milestone already",
        RefusalCode::M3 => "it is no milestone",
        RefusalCode::H1 => "nothing is there to undo",
        RefusalCode::H2 => "nothing is there to do again",
        RefusalCode::H3 =>
            "a batch is open, and takes only edits that it can hold, end, cancel and quiet",
        RefusalCode::H4 => "no batch is open",
        RefusalCode::H5 => "the batch holds 1,024 edits already",
        RefusalCode::P1 => "no table or row has this name, or the good has no such price",
        RefusalCode::P2 => "a wanted rate or a price may not be below 0",
        RefusalCode::P3 =>
            "there are 64 tables already, or the table has 512 rows, wants, imports, surpluses or goods already",
        RefusalCode::P4 => "a temperature that the row takes is not there",
        RefusalCode::P5 => "the name is used already",
        RefusalCode::K1 => "the machine does not do the activity",
        RefusalCode::K2 => "the machine is fixed to another recipe",
        RefusalCode::K3 => "the source needs this fluid, and the drill has no box for it",
        RefusalCode::K4 => "a number of the rates of the row would pass 127 bits",
        RefusalCode::K5 => "the machine gives nothing so",
        RefusalCode::L1 => "the machine burns a fuel, and none is named",
        RefusalCode::L2 => "the machine does not take this fuel",
        RefusalCode::L3 => "a fuel is named, and the machine burns none",
        RefusalCode::L4 => "the energy of the machine is not planned",
        RefusalCode::U1 => "there are more modules than slots",
        RefusalCode::U2 => "an effect of the module is not allowed here",
        RefusalCode::U3 => "the module is not allowed on this recipe",
        RefusalCode::B1 => "no machine shares the beacon",
        RefusalCode::V1 => "a number of the solver would pass 127 bits",
        RefusalCode::V2 => "the budget of exchanges is used up",
    }
}

/// The code of a cause.
pub fn code_of(cause: &Cause) -> RefusalCode
    ensures { result ≡ code_of cause.now }
{
    match cause {
        Cause::Coded(code) => *code,
        Cause::Of { code, .. } => *code,
        Cause::Mark | Cause::NoCommand(_) => RefusalCode::Q1,
        Cause::Comment | Cause::Stands { .. } => RefusalCode::Q2,
        Cause::Unfit { slot, .. } => slot_code(*slot),
        Cause::Quoting(_) => RefusalCode::Q4,
        Cause::NoObject { .. } | Cause::NoModule(_) | Cause::NoBeacon(_) => RefusalCode::X1,
        Cause::NoTable(_) | Cause::NoRow { .. } | Cause::NoPrice(_) => RefusalCode::P1,
        Cause::Undone { .. } | Cause::DoneBy { .. } | Cause::Warmer { .. } => RefusalCode::K1,
        Cause::Fuelless { .. } => RefusalCode::L1,
    }
}
