//! The words of a line as a command.
ghost use Rattle.std.specs.Prelude.{◌≡◌};
ghost use Rattle.script_reader.specs.Reading.{Answers, and_then, gives};
ghost use Rattle.script_reader.specs.Arguments.{arguments, command_of_words, no_words};

use crate::ScriptFault;
use crate::arguments::{
    enabled, good_of_recipe, kind, label, node, nothing_at, power, price, price_of_good, solve,
    switch, text, time, unlock, want,
};
use crate::command_words::{CommandWord, command_of};
use crate::row_words::row_of;
use plan_base::Text;
use plan_lines::{Change, Command};
use std::alloc::Global;

// A command of one word.
fn alone<T: Drop>(words: &[Text], command: T) -> Result<T, ScriptFault>
    ensures { Answers (and_then (no_words words.now) (λ u. gives command)) result }
{
    nothing_at(words)?;
    Ok(command)
}

fn rate(alloc: Global, words: &[Text]) -> Result<Command, ScriptFault>
    ensures { Answers (arguments CommandWord.Rate words.now) result }
{
    let (table, label) = label(alloc, words)?;
    Ok(Command::Rate { table, label })
}

fn solving(alloc: Global, words: &[Text]) -> Result<Command, ScriptFault>
    ensures { Answers (arguments CommandWord.Solve words.now) result }
{
    let (table, budget) = solve(alloc, words)?;
    Ok(Command::Solve { table, budget })
}

fn ingredient(alloc: Global, words: &[Text]) -> Result<Command, ScriptFault>
    ensures { Answers (arguments CommandWord.Ingredient words.now) result }
{
    let (recipe, good, amount) = good_of_recipe(alloc, words)?;
    Ok(Command::Change(Change::Ingredient {
        recipe,
        good,
        amount,
    }))
}

fn product(alloc: Global, words: &[Text]) -> Result<Command, ScriptFault>
    ensures { Answers (arguments CommandWord.Product words.now) result }
{
    let (recipe, good, amount) = good_of_recipe(alloc, words)?;
    Ok(Command::Change(Change::Product {
        recipe,
        good,
        amount,
    }))
}

fn unlocking(alloc: Global, words: &[Text]) -> Result<Command, ScriptFault>
    ensures { Answers (arguments CommandWord.Unlock words.now) result }
{
    let (tech, recipe, on) = unlock(alloc, words)?;
    Ok(Command::Change(Change::Unlock { tech, recipe, on }))
}

fn timing(alloc: Global, words: &[Text]) -> Result<Command, ScriptFault>
    ensures { Answers (arguments CommandWord.Time words.now) result }
{
    let (recipe, seconds) = time(alloc, words)?;
    Ok(Command::Change(Change::Time { recipe, seconds }))
}

fn enabling(alloc: Global, words: &[Text]) -> Result<Command, ScriptFault>
    ensures { Answers (arguments CommandWord.Enabled words.now) result }
{
    let (recipe, on) = enabled(alloc, words)?;
    Ok(Command::Change(Change::Enabled { recipe, on }))
}

fn powering(alloc: Global, words: &[Text]) -> Result<Command, ScriptFault>
    ensures { Answers (arguments CommandWord.Power words.now) result }
{
    let (table, on) = power(alloc, words)?;
    Ok(Command::Change(Change::Power { table, on }))
}

fn row(alloc: Global, words: &[Text]) -> Result<Command, ScriptFault>
    ensures { Answers (arguments CommandWord.Row words.now) result }
{
    let (table, label, activity, machine, parts) = row_of(alloc, words)?;
    Ok(Command::Change(Change::Row {
        table,
        label,
        activity,
        machine,
        parts,
    }))
}

fn unrow(alloc: Global, words: &[Text]) -> Result<Command, ScriptFault>
    ensures { Answers (arguments CommandWord.Unrow words.now) result }
{
    let (table, label) = label(alloc, words)?;
    Ok(Command::Change(Change::Unrow { table, label }))
}

fn pricing(alloc: Global, words: &[Text]) -> Result<Command, ScriptFault>
    ensures { Answers (arguments CommandWord.Price words.now) result }
{
    let (table, label, price) = price(alloc, words)?;
    Ok(Command::Change(Change::Price {
        table,
        label,
        price,
    }))
}

fn wanting(alloc: Global, words: &[Text]) -> Result<Command, ScriptFault>
    ensures { Answers (arguments CommandWord.Want words.now) result }
{
    let (table, good, amount) = want(alloc, words)?;
    Ok(Command::Change(Change::Want {
        table,
        good,
        amount,
    }))
}

fn import(alloc: Global, words: &[Text]) -> Result<Command, ScriptFault>
    ensures { Answers (arguments CommandWord.Import words.now) result }
{
    let (table, good, price) = price_of_good(alloc, words)?;
    Ok(Command::Change(Change::Import { table, good, price }))
}

fn surplus(alloc: Global, words: &[Text]) -> Result<Command, ScriptFault>
    ensures { Answers (arguments CommandWord.Surplus words.now) result }
{
    let (table, good, price) = price_of_good(alloc, words)?;
    Ok(Command::Change(Change::Surplus { table, good, price }))
}

/// The command that its first word begins and the words behind it end.
fn arguments_of(alloc: Global, command: CommandWord, words: &[Text]) -> Result<Command, ScriptFault>
    ensures { Answers (arguments command words.now) result }
{
    match command {
        CommandWord::Reach => node(alloc, words).map(Command::Reach),
        CommandWord::Why => node(alloc, words).map(Command::Why),
        CommandWord::Missing => node(alloc, words).map(Command::Missing),
        CommandWord::Mask => node(alloc, words).map(Command::Mask),
        CommandWord::List => kind(words).map(Command::List),
        CommandWord::Milestones => alone(words, Command::Milestones),
        CommandWord::Summary => alone(words, Command::Summary),
        CommandWord::Rate => rate(alloc, words),
        CommandWord::Solve => solving(alloc, words),
        CommandWord::Quiet => switch(words).map(Command::Quiet),
        CommandWord::Undo => alone(words, Command::Undo),
        CommandWord::Redo => alone(words, Command::Redo),
        CommandWord::Batch => alone(words, Command::Batch),
        CommandWord::End => alone(words, Command::End),
        CommandWord::Cancel => alone(words, Command::Cancel),
        CommandWord::Grant => node(alloc, words).map(Change::Grant).map(Command::Change),
        CommandWord::Revoke => node(alloc, words).map(Change::Revoke).map(Command::Change),
        CommandWord::Forbid => node(alloc, words).map(Change::Forbid).map(Command::Change),
        CommandWord::Permit => node(alloc, words).map(Change::Permit).map(Command::Change),
        CommandWord::Milestone => node(alloc, words)
            .map(Change::Milestone)
            .map(Command::Change),
        CommandWord::Unmilestone => node(alloc, words)
            .map(Change::Unmilestone)
            .map(Command::Change),
        CommandWord::Ingredient => ingredient(alloc, words),
        CommandWord::Product => product(alloc, words),
        CommandWord::Unlock => unlocking(alloc, words),
        CommandWord::Time => timing(alloc, words),
        CommandWord::Enabled => enabling(alloc, words),
        CommandWord::Table => text(alloc, words).map(Change::Table).map(Command::Change),
        CommandWord::Untable => text(alloc, words).map(Change::Untable).map(Command::Change),
        CommandWord::Row => row(alloc, words),
        CommandWord::Unrow => unrow(alloc, words),
        CommandWord::Price => pricing(alloc, words),
        CommandWord::Want => wanting(alloc, words),
        CommandWord::Import => import(alloc, words),
        CommandWord::Surplus => surplus(alloc, words),
        CommandWord::Power => powering(alloc, words),
    }
}

/// What the words of a line say.
pub fn read_words(alloc: Global, words: &[Text]) -> Result<Command, ScriptFault>
    ensures { Answers (command_of_words words.now) result }
{
    let Some((first, rest)) = words.split_first() else {
        return Err(ScriptFault::UnknownCommand);
    };
    match command_of(first.as_str()) {
        Some(command) => arguments_of(alloc, command, rest),
        None => Err(ScriptFault::UnknownCommand),
    }
}
