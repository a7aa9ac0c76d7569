//! What the solver answered, line by line.
ghost use Rattle.std.specs.Prelude.{◌≡◌, ◌++◌, ◌∷◌, [], OnErr, OnOk, option_to_list};

use linear_table::SolveAnswer;
use plan_base::NoMemory;
use state_changes::put;

fn add(solved: &mut Vec<SolveAnswer>, answer: SolveAnswer) -> Result<(), NoMemory>
    ensures ok { OnOk result (solved.new.items ≡ solved.old.items ++ answer ∷ []) }
    ensures err { OnErr result (solved.new.items ≡ solved.old.items) }
{
    if solved.reserve(1).is_err() {
        return Err(NoMemory);
    }
    put(solved, answer);
    Ok(())
}

/// Keeps what the solver answered to a line, where it did.
pub fn keep(solved: &mut Vec<SolveAnswer>, answer: Option<SolveAnswer>) -> Result<(), NoMemory>
    ensures ok { OnOk result (solved.new.items ≡ solved.old.items ++ option_to_list answer) }
    ensures err { OnErr result (solved.new.items ≡ solved.old.items) }
{
    match answer {
        Some(answer) => add(solved, answer),
        None => Ok(()),
    }
}
