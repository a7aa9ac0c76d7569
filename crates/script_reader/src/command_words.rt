//! The words that begin a line.
ghost use Rattle.std.specs.Prelude.{◌≡◌};
ghost use Rattle.script_reader.specs.Commands.{command_word, game_word, question_word, session_word, table_word};

/// The first word of a line.
#[derive(Clone, Copy)]
pub enum CommandWord {
    Reach,
    Why,
    Missing,
    Mask,
    List,
    Milestones,
    Summary,
    Rate,
    Solve,
    Quiet,
    Undo,
    Redo,
    Batch,
    End,
    Cancel,
    Grant,
    Revoke,
    Forbid,
    Permit,
    Milestone,
    Unmilestone,
    Ingredient,
    Product,
    Unlock,
    Time,
    Enabled,
    Table,
    Untable,
    Row,
    Unrow,
    Price,
    Want,
    Import,
    Surplus,
    Power,
}

// The question that a word names.
fn question_of(word: &str) -> Option<CommandWord>
    ensures { result ≡ question_word word.now }
{
    match word {
        "reach" => Some(CommandWord::Reach),
        "why" => Some(CommandWord::Why),
        "missing" => Some(CommandWord::Missing),
        "mask" => Some(CommandWord::Mask),
        "list" => Some(CommandWord::List),
        "milestones" => Some(CommandWord::Milestones),
        "summary" => Some(CommandWord::Summary),
        "rate" => Some(CommandWord::Rate),
        "solve" => Some(CommandWord::Solve),
        _ => None,
    }
}

// What a word does to the session.
fn session_of(word: &str) -> Option<CommandWord>
    ensures { result ≡ session_word word.now }
{
    match word {
        "quiet" => Some(CommandWord::Quiet),
        "undo" => Some(CommandWord::Undo),
        "redo" => Some(CommandWord::Redo),
        "batch" => Some(CommandWord::Batch),
        "end" => Some(CommandWord::End),
        "cancel" => Some(CommandWord::Cancel),
        _ => None,
    }
}

// The edit of the game, its marks or its milestones that a word names.
fn game_edit_of(word: &str) -> Option<CommandWord>
    ensures { result ≡ game_word word.now }
{
    match word {
        "grant" => Some(CommandWord::Grant),
        "revoke" => Some(CommandWord::Revoke),
        "forbid" => Some(CommandWord::Forbid),
        "permit" => Some(CommandWord::Permit),
        "milestone" => Some(CommandWord::Milestone),
        "unmilestone" => Some(CommandWord::Unmilestone),
        "ingredient" => Some(CommandWord::Ingredient),
        "product" => Some(CommandWord::Product),
        "unlock" => Some(CommandWord::Unlock),
        "time" => Some(CommandWord::Time),
        "enabled" => Some(CommandWord::Enabled),
        _ => None,
    }
}

// The edit of tables that a word names.
fn table_edit_of(word: &str) -> Option<CommandWord>
    ensures { result ≡ table_word word.now }
{
    match word {
        "table" => Some(CommandWord::Table),
        "untable" => Some(CommandWord::Untable),
        "row" => Some(CommandWord::Row),
        "unrow" => Some(CommandWord::Unrow),
        "price" => Some(CommandWord::Price),
        "want" => Some(CommandWord::Want),
        "import" => Some(CommandWord::Import),
        "surplus" => Some(CommandWord::Surplus),
        "power" => Some(CommandWord::Power),
        _ => None,
    }
}

/// The command that a word names.
pub fn command_of(word: &str) -> Option<CommandWord>
    ensures { result ≡ command_word word.now }
{
    let line = question_of(word).or(session_of(word));
    let edit = game_edit_of(word).or(table_edit_of(word));
    line.or(edit)
}
