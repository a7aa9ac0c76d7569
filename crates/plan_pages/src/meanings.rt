//! What refusals mean.
use plan_lines::RefusalCode;

/// The cause of a refusal in words.
pub fn meaning(code: RefusalCode) -> &'static str {
    match code {
        RefusalCode::Q1 => "the first word is no command",
        RefusalCode::Q2 => "the number of words is wrong, or a fixed word isn't one",
        RefusalCode::Q3 => "a word is no number of the kind that stands there",
        RefusalCode::Q4 => "the line isn't UTF-8, or a word is badly quoted",
        RefusalCode::Q5 => "a word is no object, or not of a kind that stands there",
        RefusalCode::X1 => "no such object, or not a module, not a beacon",
        RefusalCode::X2 => "all would be as before",
        RefusalCode::X3 => "an amount or a time isn't above 0",
        RefusalCode::X4 => "a list would have more than 1,024 entries",
        RefusalCode::M1 => "there are 256 milestones",
        RefusalCode::M2 => "it is a milestone already",
        RefusalCode::M3 => "it is no milestone",
        RefusalCode::H1 => "nothing is there to undo",
        RefusalCode::H2 => "nothing is there to do again",
        RefusalCode::H3 => "a batch is open, and the line can't be held",
        RefusalCode::H4 => "no batch is open",
        RefusalCode::H5 => "the batch holds 1,024 edits",
        RefusalCode::P1 => "no such table, row, import or surplus",
        RefusalCode::P2 => "a wanted rate or a price is below 0",
        RefusalCode::P3 =>
            "there are 64 tables, or 512 rows, wants, imports, surpluses or goods of a table",
        RefusalCode::P4 => "a temperature that the row takes isn't there",
        RefusalCode::P5 => "the name of the table or the label of the row is used",
        RefusalCode::K1 => "the machine doesn't do the activity",
        RefusalCode::K2 => "the machine is fixed to another recipe",
        RefusalCode::K3 => "the source needs a fluid, and the drill has no box for it",
        RefusalCode::K4 => "a number of the row's rates would pass 127 bits",
        RefusalCode::K5 => "the machine gives nothing so",
        RefusalCode::L1 => "the machine burns a fuel and none is named",
        RefusalCode::L2 => "the machine doesn't take this fuel",
        RefusalCode::L3 => "a fuel is named and the machine burns none",
        RefusalCode::L4 => "the machine's energy isn't planned",
        RefusalCode::U1 => "there are more modules than slots",
        RefusalCode::U2 => "an effect of the module isn't allowed",
        RefusalCode::U3 => "the module isn't allowed on the recipe",
        RefusalCode::B1 => "no machine shares the beacon",
        RefusalCode::V1 => "a number of the solver would pass 127 bits",
        RefusalCode::V2 => "the budget of exchanges is used up",
    }
}
