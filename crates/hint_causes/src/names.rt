//! Names as words, and the names that are like a word.
ghost use Rattle.game_types.specs.Sound.{IsSound};

use game_types::Game;
use line_causes::{Likeness, nearest};
use name_table::Names;
use plan_base::{Kind, NoMemory, NodeId, Text};
use plan_report::kind_word;
use production_table::Table;
use std::alloc::Global;

/// The commands of a script.
const COMMANDS: [&str; 35] = [
    "reach",
    "why",
    "missing",
    "mask",
    "list",
    "milestones",
    "summary",
    "rate",
    "solve",
    "quiet",
    "undo",
    "redo",
    "batch",
    "end",
    "cancel",
    "grant",
    "revoke",
    "forbid",
    "permit",
    "milestone",
    "unmilestone",
    "ingredient",
    "product",
    "unlock",
    "time",
    "enabled",
    "table",
    "untable",
    "row",
    "unrow",
    "price",
    "want",
    "import",
    "surplus",
    "power",
];

/// The kinds whose things have names of their own.
const KINDS: [Kind; 6] = [
    Kind::Item,
    Kind::Fluid,
    Kind::Recipe,
    Kind::Tech,
    Kind::Machine,
    Kind::Source,
];

/// A name with its kind, as a script writes it where it needs no quotes.
pub fn object_text(alloc: Global, kind: Kind, name: &str) -> Result<Text, NoMemory> {
    let kind = kind_word(kind);
    Ok(Text::from_string(format!(in alloc; "{kind}:{name}")?))
}

/// The name of a node with its kind, where there is such a node.
pub fn node_text(alloc: Global, game: &Game, node: NodeId) -> Result<Option<Text>, NoMemory>
    requires { IsSound game.now }
{
    let shape = game.shape();
    if node.0 < shape.len() {
        let kind = shape.kind_of(node).0;
        Ok(Some(object_text(alloc, kind, game.name_of(node))?))
    } else {
        Ok(None)
    }
}

// Whether a name may have been meant by a word: one edit for each two or three bytes leads there.
fn is_near(likeness: Likeness, word: &str) -> bool {
    likeness.edits <= (word.len() / 3).saturating_add(1) && likeness.edits <= word.len() / 2
}

// The first of the names that is like a word, where one is.
fn like(alloc: Global, word: &str, names: &[Text]) -> Result<Option<Text>, NoMemory> {
    match nearest(alloc, word, names)? {
        Some(likeness) if is_near(likeness, word) => match names.get(likeness.place) {
            Some(name) => Ok(Some(Text::copy(alloc, name.as_str())?)),
            None => Ok(None),
        },
        _ => Ok(None),
    }
}

/// The command that is like a word.
pub fn like_command(alloc: Global, word: &str) -> Result<Option<Text>, NoMemory> {
    let mut names = Vec::new(alloc);
    for command in COMMANDS {
        names.push(Text::copy(alloc, command)?)?;
    }
    like(alloc, word, &names)
}

/// The table whose name is like a word.
pub fn like_table(alloc: Global, tables: &[Table], word: &str) -> Result<Option<Text>, NoMemory> {
    let mut names = Vec::new(alloc);
    for table in tables {
        names.push(Text::copy(alloc, table.name.as_str())?)?;
    }
    like(alloc, word, &names)
}

/// The row of a table whose label is like a word.
pub fn like_label(alloc: Global, table: &Table, word: &str) -> Result<Option<Text>, NoMemory> {
    let mut names = Vec::new(alloc);
    for row in table.rows.as_slice() {
        names.push(Text::copy(alloc, row.label.as_str())?)?;
    }
    like(alloc, word, &names)
}

// The names of a kind.
fn names_of(game: &Game, kind: Kind) -> Option<&Names> {
    match kind {
        Kind::Special => None,
        Kind::Item => Some(&game.item_names),
        Kind::Fluid => Some(&game.fluid_names),
        Kind::Recipe => Some(&game.recipe_names),
        Kind::Source => Some(&game.source_names),
        Kind::Machine => Some(&game.machine_names),
        Kind::Tech => Some(&game.tech_names),
    }
}

fn copied(alloc: Global, names: &Names) -> Result<Vec<Text>, NoMemory> {
    let mut copies = Vec::new(alloc);
    for id in 0..names.len() {
        copies.push(Text::copy(alloc, names.name_of(id))?)?;
    }
    Ok(copies)
}

// The thing of a kind whose name is like a word, with its kind.
fn like_of_kind(
    alloc: Global,
    game: &Game,
    kind: Kind,
    word: &str,
) -> Result<Option<Text>, NoMemory> {
    let Some(names) = names_of(game, kind) else {
        return Ok(None);
    };
    let names = copied(alloc, names)?;
    match like(alloc, word, &names)? {
        Some(name) => Ok(Some(object_text(alloc, kind, name.as_str())?)),
        None => Ok(None),
    }
}

// A thing of another kind that has this very name, with its kind.
fn same_name(alloc: Global, game: &Game, name: &str) -> Result<Option<Text>, NoMemory>
    requires { IsSound game.now }
{
    for kind in KINDS {
        if game.find(kind, name).is_some() {
            return Ok(Some(object_text(alloc, kind, name)?));
        }
    }
    Ok(None)
}

/// What was likely meant by a kind and a name that name nothing together: a thing of the kind with a name like it, or else one of
/// another kind with that name.
pub fn like_object(
    alloc: Global,
    game: &Game,
    kind: Kind,
    name: &str,
) -> Result<Option<Text>, NoMemory>
    requires { IsSound game.now }
{
    match like_of_kind(alloc, game, kind, name)? {
        Some(word) => Ok(Some(word)),
        None => same_name(alloc, game, name),
    }
}

/// What was likely meant by a word that names no object: a thing of that name, or else one of a name like it.
pub fn like_word(alloc: Global, game: &Game, word: &str) -> Result<Option<Text>, NoMemory>
    requires { IsSound game.now }
{
    let name = match word.split_once(':') {
        Some((_, name)) => name,
        None => word,
    };
    if let Some(found) = same_name(alloc, game, name)? {
        return Ok(Some(found));
    }
    for kind in KINDS {
        if let Some(found) = like_of_kind(alloc, game, kind, name)? {
            return Ok(Some(found));
        }
    }
    Ok(None)
}
