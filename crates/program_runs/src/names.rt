// The names of the files of a run, among its words.
ghost use Rattle.std.specs.Prelude.{◌≡◌, option_map, position};
ghost use Rattle.std.specs.List.{slice_get};
ghost use Rattle.program_runs.specs.Names.{dump_name, is_dashes, script_name, without_dashes, word_at};

use plan_base::Text;

fn dashes_at(words: &[Text]) -> Option<usize>
    ensures { result ≡ position is_dashes words.now }
{
    words.iter().position(|word| word.as_str() == "--")
}

// The word at a place, where the first `--` isn't counted.
fn counted_word(words: &[Text], place: usize) -> Option<&Text>
    ensures { option_map (λ word. word.now) result ≡ slice_get (without_dashes words.now) place }
{
    match dashes_at(words) {
        Some(dashes) if dashes <= place => words[dashes + 1..].get(place - dashes),
        _ => words.get(place),
    }
}

// The word at a place behind the program's name.
fn word_at(words: &[Text], place: usize) -> Option<&str>
    ensures { option_map (λ word. word.now) result ≡ word_at words.now place }
{
    match words {
        [] => None,
        [_, words @ ..] => counted_word(words, place).map(|word| word.as_str()),
    }
}

/// The name of the dump of a run.
pub fn dump_name(words: &[Text]) -> Option<&str>
    ensures { option_map (λ name. name.now) result ≡ dump_name words.now }
{
    word_at(words, 1)
}

/// The name of the script of a run.
pub fn script_name(words: &[Text]) -> Option<&str>
    ensures { option_map (λ name. name.now) result ≡ script_name words.now }
{
    word_at(words, 2)
}
